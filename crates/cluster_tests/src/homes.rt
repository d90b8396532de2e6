//! Homes of a machine of eight clusters: reads of one line, a table of the rows, and many sharers.

use dash_base::{ClusterId, Line, LineId, Topology};
use dash_msg::{Msg, Sent};
use directory::{Burst, EntryState, Home};
use elf_load::{Image, MemoryMap, load};
use std::alloc::Global;
use std::process::Abort;
use std::test::Fail;

/// The headers of a file with one segment of 32 bytes, at 0x10000 in memory and at 84 in the file.
static HEADERS: [u8; 84] = [
    0x7f, 0x45, 0x4c, 0x46, 1, 1, 1, 0, 0, 0, 0, 0, 0, 0, 0, 0, // e_ident
    2, 0, 243, 0, 1, 0, 0, 0, // e_type, e_machine, e_version
    0, 0, 1, 0, 52, 0, 0, 0, 0, 0, 0, 0, // e_entry, e_phoff, e_shoff
    0, 0, 0, 0, 52, 0, 32, 0, 1, 0, // e_flags, e_ehsize, e_phentsize, e_phnum
    0, 0, 0, 0, 0, 0, // e_shentsize, e_shnum, e_shstrndx
    1, 0, 0, 0, 84, 0, 0, 0, // p_type, p_offset
    0, 0, 1, 0, 0, 0, 1, 0, // p_vaddr, p_paddr
    32, 0, 0, 0, 32, 0, 0, 0, // p_filesz, p_memsz
    5, 0, 0, 0, 1, 0, 0, 0, // p_flags, p_align
];

/// Its words, from 0x10000 on. The second line of them is the line 4097 of memory, whose home among
/// 8 or 16 clusters is the cluster 1.
static WORDS: [u32; 8] = [
    0x06f0_0513,
    0x0010_0893,
    0x0000_0073,
    0x06b0_0513,
    0x0000_0073,
    0x0000_0513,
    0x05d0_0893,
    0x0000_0073,
];

const HOME: ClusterId = ClusterId(1);

const LINE: LineId = LineId(4097);

/// The line at the start.
const OPENING: Line = Line {
    words: [0x0000_0073, 0x0000_0513, 0x05d0_0893, 0x0000_0073],
    version: 0,
};

/// A later content of it.
const COPY: Line = Line {
    words: [1, 2, 3, 4],
    version: 7,
};

fn image(alloc: Global) -> Result<Image, Fail> {
    let mut bytes = Vec::from_slice(alloc, &HEADERS)?;
    for word in &WORDS {
        bytes.extend_from_slice(&word.to_le_bytes())?;
    }
    let map = MemoryMap {
        base: 0,
        size: 0x10_0000,
    };
    Ok(load(alloc, &bytes, map)?)
}

/// The home of the cluster 1 of so many at the start.
fn home(rt: &impl Abort, alloc: Global, clusters: u32) -> Result<Home, Fail> {
    let topology = Topology::simple(clusters, 1, 10)?;
    let image = image(alloc)?;
    assert!(rt; HOME.0 < topology.clusters);
    Ok(Home::new(alloc, &topology, HOME, &image)?)
}

/// Serves a message, where it is one to serve here.
fn serve(home: &mut Home, from: u32, msg: &Msg) -> Option<Burst> {
    if home.serves(ClusterId(from), msg) {
        Some(home.serve(ClusterId(from), msg))
    } else {
        None
    }
}

/// The entry and the content of the line.
fn kept(home: &Home) -> Option<(EntryState, Line)> {
    if home.is_home(LINE) {
        Some((home.entry(LINE), home.line(LINE)))
    } else {
        None
    }
}

#[test]
fn the_lines_of_a_home_have_the_bytes_of_the_image(rt: HostRuntime) -> Result<(), Fail> {
    let home = home(&rt, rt.alloc(), 8)?;
    assert_eq!(rt; kept(&home), Some((EntryState::Uncached, OPENING)));
    for (line, is_home) in [
        (0, false),
        (1, true),
        (4096, false),
        (4097, true),
        (65529, true),
        (65537, false),
    ] {
        assert_eq!(rt; home.is_home(LineId(line)), is_home, "line {line}");
    }
    Ok(())
}

#[test]
fn three_clusters_read_one_line(rt: HostRuntime) -> Result<(), Fail> {
    let mut home = home(&rt, rt.alloc(), 8)?;
    for from in [3, 0, 2] {
        let burst = serve(&mut home, from, &Msg::Read { line: LINE }).expect(&rt, "served");
        assert_eq!(rt; burst.len(), 1);
        assert_eq!(rt;
            burst.first().copied(),
            Some(Sent {
                to: ClusterId(from),
                msg: Msg::Data {
                    line: LINE,
                    copy: OPENING
                }
            })
        );
    }
    assert_eq!(rt; kept(&home), Some((EntryState::Shared(0b1101), OPENING)));
    Ok(())
}

const READ: Msg = Msg::Read { line: LINE };

const READ_EX: Msg = Msg::ReadEx { line: LINE };

const WRITE_BACK: Msg = Msg::WriteBack {
    line: LINE,
    copy: COPY,
};

const SHARING_BACK: Msg = Msg::SharingBack {
    line: LINE,
    copy: COPY,
    to: ClusterId(5),
};

const TRANSFER: Msg = Msg::Transfer {
    line: LINE,
    to: ClusterId(5),
};

fn to(cluster: u32, msg: Msg) -> Sent {
    Sent {
        to: ClusterId(cluster),
        msg,
    }
}

fn data(cluster: u32) -> Sent {
    to(
        cluster,
        Msg::Data {
            line: LINE,
            copy: OPENING,
        },
    )
}

fn data_ex(cluster: u32, count: u32) -> Sent {
    to(
        cluster,
        Msg::DataEx {
            line: LINE,
            copy: OPENING,
            count,
        },
    )
}

fn inval(cluster: u32, owner: u32) -> Sent {
    to(
        cluster,
        Msg::Inval {
            line: LINE,
            to: ClusterId(owner),
        },
    )
}

#[test]
fn each_message_is_served_as_its_row_says(rt: HostRuntime) -> Result<(), Fail> {
    let uncached = EntryState::Uncached;
    let (shared, dirty) = (EntryState::Shared(0b101), EntryState::Dirty(ClusterId(2)));
    let line = LINE;
    let fwd_read = to(
        2,
        Msg::FwdRead {
            line,
            to: ClusterId(5),
        },
    );
    let fwd_read_ex = to(
        2,
        Msg::FwdReadEx {
            line,
            to: ClusterId(5),
        },
    );
    let none: &[(u32, Msg)] = &[];
    let sharers: &[(u32, Msg)] = &[(0, READ), (2, READ)];
    let owner: &[(u32, Msg)] = &[(2, READ_EX)];
    let rows: [(&[(u32, Msg)], u32, Msg, EntryState, Line, &[Sent]); 14] = [
        (
            none,
            2,
            READ,
            EntryState::Shared(0b100),
            OPENING,
            &[data(2)],
        ),
        (sharers, 0, READ, shared, OPENING, &[data(0)]),
        (owner, 5, READ, dirty, OPENING, &[fwd_read]),
        (none, 2, READ_EX, dirty, OPENING, &[data_ex(2, 0)]),
        (
            sharers,
            5,
            READ_EX,
            EntryState::Dirty(ClusterId(5)),
            OPENING,
            &[inval(0, 5), inval(2, 5), data_ex(5, 2)],
        ),
        (
            sharers,
            2,
            READ_EX,
            dirty,
            OPENING,
            &[inval(0, 2), data_ex(2, 1)],
        ),
        (owner, 5, READ_EX, dirty, OPENING, &[fwd_read_ex]),
        (owner, 2, WRITE_BACK, uncached, COPY, &[]),
        (owner, 5, WRITE_BACK, dirty, OPENING, &[]),
        (
            owner,
            2,
            SHARING_BACK,
            EntryState::Shared(0b10_0100),
            COPY,
            &[],
        ),
        (sharers, 2, SHARING_BACK, shared, OPENING, &[]),
        (
            owner,
            2,
            TRANSFER,
            EntryState::Dirty(ClusterId(5)),
            OPENING,
            &[to(5, Msg::TransferAck { line })],
        ),
        (owner, 0, TRANSFER, dirty, OPENING, &[]),
        (none, 2, WRITE_BACK, uncached, OPENING, &[]),
    ];
    for (row, (before, from, msg, entry, content, sent)) in rows.iter().enumerate() {
        let mut home = home(&rt, rt.alloc(), 8)?;
        for (earlier, request) in before.iter() {
            serve(&mut home, *earlier, request).expect(&rt, "served");
        }
        let burst = serve(&mut home, *from, msg).expect(&rt, "served");
        assert_eq!(rt; burst.as_slice(), *sent, "row {row}");
        assert_eq!(rt; kept(&home), Some((*entry, *content)), "row {row}");
    }
    Ok(())
}

#[test]
fn sixteen_sharers_are_invalidated_in_order(rt: HostRuntime) -> Result<(), Fail> {
    let mut home = home(&rt, rt.alloc(), 16)?;
    for from in 0..16 {
        serve(&mut home, from, &READ).expect(&rt, "served");
    }
    assert_eq!(rt; kept(&home), Some((EntryState::Shared(0xffff), OPENING)));
    let burst = serve(&mut home, 5, &READ_EX).expect(&rt, "served");
    let mut sent = Vec::new(rt.alloc());
    for cluster in 0..16 {
        if cluster != 5 {
            sent.push(inval(cluster, 5))?;
        }
    }
    sent.push(data_ex(5, 15))?;
    assert_eq!(rt; burst.as_slice(), sent.as_slice());
    Ok(())
}

#[test]
fn what_is_not_this_home_s_to_serve_is_told(rt: HostRuntime) -> Result<(), Fail> {
    let home = home(&rt, rt.alloc(), 8)?;
    for (from, msg, served) in [
        (0, READ, true),
        (8, READ, false),
        (0, Msg::Read { line: LineId(4098) }, false),
        (
            0,
            Msg::Transfer {
                line: LINE,
                to: ClusterId(8),
            },
            false,
        ),
        (0, Msg::Nak { line: LINE }, false),
    ] {
        assert_eq!(rt; home.serves(ClusterId(from), &msg), served);
    }
    Ok(())
}
