//! Images written out by hand, and which hart is next.

use dash_base::{End, HartId, Topology};
use dash_event::Op;
use elf_load::{MemoryMap, load};
use flat_model::{FlatEnd, flat_run};
use std::alloc::{AllocError, Global};
use std::test::Fail;

/// The headers of a file with one segment of 32 bytes, at 0x10000 in memory and at 84 in the file.
static HEADERS: [u8; 84] = [
    0x7f, 0x45, 0x4c, 0x46, 1, 1, 1, 0, 0, 0, 0, 0, 0, 0, 0, 0, // e_ident
    2, 0, 243, 0, 1, 0, 0, 0, // e_type, e_machine, e_version
    0, 0, 1, 0, 52, 0, 0, 0, 0, 0, 0, 0, // e_entry, e_phoff, e_shoff
    0, 0, 0, 0, 52, 0, 32, 0, 1, 0, // e_flags, e_ehsize, e_phentsize, e_phnum
    0, 0, 0, 0, 0, 0, // e_shentsize, e_shnum, e_shstrndx
    1, 0, 0, 0, 84, 0, 0, 0, // p_type, p_offset
    0, 0, 1, 0, 0, 0, 1, 0, // p_vaddr, p_paddr
    32, 0, 0, 0, 32, 0, 0, 0, // p_filesz, p_memsz
    5, 0, 0, 0, 1, 0, 0, 0, // p_flags, p_align
];

/// Prints "ok" and exits.
const PRINTS: [u32; 8] = [
    0x06f0_0513, // addi a0, zero, 111
    0x0010_0893, // addi a7, zero, 1
    0x0000_0073, // ecall
    0x06b0_0513, // addi a0, zero, 107
    0x0000_0073, // ecall
    0x0000_0513, // addi a0, zero, 0
    0x05d0_0893, // addi a7, zero, 93
    0x0000_0073, // ecall
];

/// Takes the first lock word, and gives it back.
const LOCKS: [u32; 8] = [
    0x0010_02b7, // lui t0, 0x100
    0x0010_0313, // addi t1, zero, 1
    0x0c62_a3af, // amoswap.w.aq t2, t1, (t0)
    0x0a02_a02f, // amoswap.w.rl zero, zero, (t0)
    0x0000_0013, // nop
    0x0000_0013, // nop
    0x0000_0013, // nop
    0x0000_0013, // nop
];

/// Reserves a word, and stores its number plus 7 there if the reservation still stands.
const RESERVES: [u32; 8] = [
    0x0000_82b7, // lui t0, 8
    0x0075_0313, // addi t1, a0, 7
    0x1002_a3af, // lr.w t2, (t0)
    0x1862_a42f, // sc.w s0, t1, (t0)
    0x0002_a483, // lw s1, 0(t0)
    0x0000_0013, // nop
    0x0000_0013, // nop
    0x0000_0013, // nop
];

const MEMORY: MemoryMap = MemoryMap {
    base: 0,
    size: 0x10_0000,
};

fn file(alloc: Global, words: &[u32; 8]) -> Result<Vec<u8>, AllocError> {
    let mut bytes = Vec::from_slice(alloc, &HEADERS)?;
    for word in words {
        bytes.extend_from_slice(&word.to_le_bytes())?;
    }
    Ok(bytes)
}

/// What a test looks at in an access: hart, number, operation, word, what it read and wrote.
type Seen = (u32, u32, Op, u32, Option<u32>, Option<u32>);

/// A program for two harts, the hart of each turn, and what comes of it: the accesses, and the pc and
/// the retired count of each hart.
#[derive(Drop)]
struct Row<'a> {
    words: [u32; 8],
    order: &'a [u32],
    seen: &'a [Seen],
    ends: [(u32, u32); 2],
}

#[test]
fn a_hart_that_is_listed_eight_times_prints_and_exits(rt: HostRuntime) -> Result<(), Fail> {
    let topology = Topology::simple(1, 1, 100)?;
    let bytes = file(rt.alloc(), &PRINTS)?;
    let image = load(rt.alloc(), &bytes, MEMORY)?;
    let order = [HartId(0); 8];
    let end = flat_run(rt.alloc(), &image, &topology, &order)?;
    assert_eq!(rt; end.console.as_slice(), b"ok".as_slice());
    assert_eq!(rt; end.accesses.len(), 0);
    let hart = &end.harts[0];
    assert_eq!(rt; hart.pc(), 0x1_001c);
    assert_eq!(rt; hart.retired(), 8);
    assert_eq!(rt; hart.end(), End::Exited(0));
    Ok(())
}

#[test]
fn two_harts_take_turns_as_listed(rt: HostRuntime) -> Result<(), Fail> {
    let rows: [Row; 2] = [
        // Hart 1 asks in vain twice, and takes the lock word once it is free.
        Row {
            words: LOCKS,
            order: &[0, 0, 0, 1, 1, 1, 1, 0, 1],
            seen: &[
                (0, 3, Op::Ask, 0x10_0000, Some(0), Some(1)),
                (0, 4, Op::Unlock, 0x10_0000, Some(1), Some(0)),
                (1, 3, Op::Ask, 0x10_0000, Some(0), Some(1)),
            ],
            ends: [(0x1_0010, 4), (0x1_000c, 3)],
        },
        // Hart 0 stores first, so the reservation of hart 1 is gone.
        Row {
            words: RESERVES,
            order: &[0, 0, 1, 1, 0, 1, 0, 1, 1, 0],
            seen: &[
                (0, 3, Op::Reserve, 0x8000, Some(0), None),
                (1, 3, Op::Reserve, 0x8000, Some(0), None),
                (0, 4, Op::Cond, 0x8000, None, Some(7)),
                (1, 4, Op::Cond, 0x8000, None, None),
                (1, 5, Op::Load, 0x8000, Some(7), None),
                (0, 5, Op::Load, 0x8000, Some(7), None),
            ],
            ends: [(0x1_0014, 5), (0x1_0014, 5)],
        },
    ];
    for row in &rows {
        let end = drive(rt.alloc(), &row.words, row.order)?;
        assert_eq!(rt; end.accesses.len(), row.seen.len());
        for (a, want) in end.accesses.iter().zip(row.seen) {
            let seen = (a.hart.0, a.number, a.op, a.word.0, a.read, a.written);
            assert_eq!(rt; seen, *want);
        }
        for (hart, want) in end.harts.iter().zip(&row.ends) {
            assert_eq!(rt; (hart.pc(), hart.retired()), *want);
        }
    }
    Ok(())
}

/// The end of a run of a program by two harts in an order.
fn drive(alloc: Global, words: &[u32; 8], order: &[u32]) -> Result<FlatEnd, Fail> {
    let topology = Topology::simple(1, 2, 100)?;
    let bytes = file(alloc, words)?;
    let image = load(alloc, &bytes, MEMORY)?;
    let mut harts = Vec::new(alloc);
    'turns: for number in order {
        harts.push(HartId(*number % 2))?;
    }
    Ok(flat_run(alloc, &image, &topology, &harts)?)
}
