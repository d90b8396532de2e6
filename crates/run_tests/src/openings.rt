//! The parts of a cluster at the start of a run, and what its slots ask for then.

use dash_base::{ClusterId, HartId, LineId, Topology};
use dash_event::Kind;
use dash_msg::{Msg, Sent};
use elf_load::{Image, MemoryMap, load};
use remote_cache::{Phase, Slot};
use std::alloc::Global;
use std::process::Abort;
use std::test::Fail;
use unit_rows::{Site, fits_request, opening_parts, request};

/// The headers of a file with one segment of 32 bytes, at 0x10000 in memory and at 84 in the file.
static HEADERS: [u8; 84] = [
    0x7f, 0x45, 0x4c, 0x46, 1, 1, 1, 0, 0, 0, 0, 0, 0, 0, 0, 0, // e_ident
    2, 0, 243, 0, 1, 0, 0, 0, // e_type, e_machine, e_version
    0, 0, 1, 0, 52, 0, 0, 0, 0, 0, 0, 0, // e_entry, e_phoff, e_shoff
    0, 0, 0, 0, 52, 0, 32, 0, 1, 0, // e_flags, e_ehsize, e_phentsize, e_phnum
    0, 0, 0, 0, 0, 0, // e_shentsize, e_shnum, e_shstrndx
    1, 0, 0, 0, 84, 0, 0, 0, // p_type, p_offset
    0, 0, 1, 0, 0, 0, 1, 0, // p_vaddr, p_paddr
    32, 0, 0, 0, 32, 0, 0, 0, // p_filesz, p_memsz
    5, 0, 0, 0, 1, 0, 0, 0, // p_flags, p_align
];

/// The first word of the segment, and of the line 4096 of memory, whose home among two clusters is the
/// cluster 0. The line after it is of the other home. It is `li a0, 111`.
const WORD: u32 = 0x06f0_0513;

/// `lw a0, -16(sp)`, which loads from the last line of the hart's stack.
const LOAD: u32 = 0xff01_2503;

/// The last line of the stack of the hart 0, at the top of memory, and of the hart 1, a sixteenth of memory
/// below. The other cluster is the home of both.
const STACK: LineId = LineId(65_535);

const OTHER_STACK: LineId = LineId(61_439);

const CLUSTER: ClusterId = ClusterId(0);

/// A segment of eight times this word.
fn image(alloc: Global, word: u32) -> Result<Image, Fail> {
    let mut bytes = Vec::from_slice(alloc, &HEADERS)?;
    for _i in 0..8 {
        bytes.extend_from_slice(&word.to_le_bytes())?;
    }
    let map = MemoryMap {
        base: 0,
        size: 0x10_0000,
    };
    Ok(load(alloc, &bytes, map)?)
}

/// The first of two clusters of two harts each, which run eight times the same instruction.
pub fn site(rt: &impl Abort, alloc: Global, word: u32) -> Result<Site, Fail> {
    let topology = Topology::simple(2, 2, 10)?;
    let image = image(alloc, word)?;
    assert!(rt; CLUSTER.0 < topology.clusters);
    Ok(Site {
        image,
        topology,
        cluster: CLUSTER,
    })
}

#[test]
fn a_cluster_opens_with_its_harts_at_the_entry(rt: HostRuntime) -> Result<(), Fail> {
    let alloc = rt.alloc();
    let site = site(&rt, alloc, WORD)?;
    let parts = opening_parts(alloc, &site)?;
    assert_eq!(rt; parts.locals.len(), 2);
    for local in &parts.locals {
        assert_eq!(rt; local.core.pc(), 0x1_0000);
        assert!(rt; local.buffer.head().is_none());
        assert!(rt; local.reserved.is_none() && !local.asked);
    }
    assert!(rt; parts.bus.peek(LineId(4096)).is_none());
    assert_eq!(rt; parts.slots.count(), 4 + site.topology.prefetch);
    assert!(rt; parts.acks.got(LineId(4096)).is_none());
    assert!(rt; parts.home.is_home(LineId(4096)) && !parts.home.is_home(LineId(4097)));
    assert_eq!(rt; parts.home.line(LineId(4096)).words[3], WORD);
    assert!(rt; parts.locks.is_own(0) && !parts.locks.is_own(1));
    Ok(())
}

#[test]
fn an_instruction_without_a_line_asks_for_none(rt: HostRuntime) -> Result<(), Fail> {
    let alloc = rt.alloc();
    let site = site(&rt, alloc, WORD)?;
    let parts = opening_parts(alloc, &site)?;
    assert!(rt; parts.slots.count() > 0);
    assert!(rt; fits_request(&site, &parts, 0).is_none());
    Ok(())
}

#[test]
fn a_load_asks_for_its_line_by_the_front_slot(rt: HostRuntime) -> Result<(), Fail> {
    let alloc = rt.alloc();
    let site = site(&rt, alloc, LOAD)?;
    let mut parts = opening_parts(alloc, &site)?;
    assert!(rt; parts.slots.count() > 2);
    let next = Slot {
        hart: 1,
        line: OTHER_STACK,
        own: false,
        phase: Phase::Asked,
    };
    assert_eq!(rt; fits_request(&site, &parts, 1), Some(next));
    assert!(rt; fits_request(&site, &parts, 2).is_none());
    let asked = Kind::Ask {
        slot: 0,
        hart: HartId(0),
        line: STACK,
        own: false,
    };
    let sent = Sent {
        to: ClusterId(1),
        msg: Msg::Read { line: STACK },
    };
    assert_eq!(rt; request(&site, &mut parts, 0), Some((asked, sent)));
    assert_eq!(rt; parts.slots.of_line(STACK), Some(0));
    Ok(())
}
