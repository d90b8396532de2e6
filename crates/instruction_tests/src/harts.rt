//! Programs as GNU as makes them, with the needs and the registers that the manual gives.

use dash_base::{AmoOp, Labels, Mask, WordAddr};
use elf_load::{MemoryMap, load};
use hart_core::{End, Hart, HartId, HintKind, Image, Need, Topology, Trap};
use std::alloc::Global;
use std::test::Fail;

/// The headers of a file with one segment of 32 words, at 0x10000 in memory and at 84 in the file.
static HEADERS: [u8; 84] = [
    0x7f, 0x45, 0x4c, 0x46, 1, 1, 1, 0, 0, 0, 0, 0, 0, 0, 0, 0, // e_ident
    2, 0, 243, 0, 1, 0, 0, 0, // e_type, e_machine, e_version
    0, 0, 1, 0, 52, 0, 0, 0, 0, 0, 0, 0, // e_entry, e_phoff, e_shoff
    0, 0, 0, 0, 52, 0, 32, 0, 1, 0, // e_flags, e_ehsize, e_phentsize, e_phnum
    0, 0, 0, 0, 0, 0, // e_shentsize, e_shnum, e_shstrndx
    1, 0, 0, 0, 84, 0, 0, 0, // p_type, p_offset
    0, 0, 1, 0, 0, 0, 1, 0, // p_vaddr, p_paddr
    128, 0, 0, 0, 128, 0, 0, 0, // p_filesz, p_memsz
    5, 0, 0, 0, 1, 0, 0, 0, // p_flags, p_align
];

const NONE: Labels = Labels {
    aq: false,
    rl: false,
};

const AQ: Labels = Labels {
    aq: true,
    rl: false,
};

const RL: Labels = Labels {
    aq: false,
    rl: true,
};

/// An image that begins with these words, in a memory of 1 MiB.
fn image_of(alloc: Global, words: &[u32]) -> Result<Image, Fail> {
    let mut bytes = Vec::from_slice(alloc, &HEADERS)?;
    for i in 0..32 {
        let word = words.get(i).copied().unwrap_or(0);
        bytes.extend_from_slice(&word.to_le_bytes())?;
    }
    let map = MemoryMap {
        base: 0,
        size: 0x10_0000,
    };
    Ok(load(alloc, &bytes, map)?)
}

/// Does the next instruction, and says what it needed.
fn step(hart: &mut Hart, image: &Image, topology: &Topology, answer: u32) -> Need {
    let need = hart.next(image, topology);
    if !matches!(&need, Need::Rest) {
        hart.finish(image, topology, answer);
    }
    need
}

#[test]
fn a_program_of_every_need(rt: HostRuntime) -> Result<(), Fail> {
    let words = [
        0x0002_0437, // lui s0,0x20
        0xffe0_0293, // addi t0,zero,-2
        0x0054_2223, // sw t0,4(s0)
        0x0054_0303, // lb t1,5(s0)
        0x0064_1123, // sh t1,2(s0)
        0x1404_23af, // lr.w.aq t2,(s0)
        0x1a64_2e2f, // sc.w.rl t3,t1,(s0)
        0x01c4_2eaf, // amoadd.w t4,t3,(s0)
        0x0310_000f, // fence rw,w
        0x0220_000f, // fence r,r
        0x0100_000f, // fence w,0
        0x0234_6013, // prefetch.w 32(s0)
        0x0010_04b7, // lui s1,0x100
        0x0c94_af2f, // amoswap.w.aq t5,s1,(s1)
        0x0a04_afaf, // amoswap.w.rl t6,zero,(s1)
        0x0080_00ef, // jal ra,8
        0x0010_0073, // ebreak
        0x0010_0893, // addi a7,zero,1
        0x0000_0073, // ecall
        0x05d0_0893, // addi a7,zero,93
        0x0000_0073, // ecall
    ];
    let image = image_of(rt.alloc(), &words)?;
    let topology = Topology::simple(1, 2, 20).expect(&rt, "a topology");
    let mut hart = Hart::new(&image, &topology, HartId(1));
    assert_eq!(rt; hart.reg(2), 0x10_0000 - 0x2_0000, "sp");
    assert_eq!(rt; hart.reg(11), 2, "a1");
    let low = WordAddr(0x2_0000);
    let high = WordAddr(0x2_0004);
    let lock = WordAddr(0x10_0000);
    let steps = [
        (Need::Alu, 0),
        (Need::Alu, 0),
        (
            Need::Store {
                word: high,
                mask: Mask::new(15),
                value: 0xffff_fffe,
            },
            0,
        ),
        (
            Need::Load {
                word: high,
                mask: Mask::new(2),
                labels: NONE,
                reserve: false,
            },
            0x7f00_997f,
        ),
        (
            Need::Store {
                word: low,
                mask: Mask::new(12),
                value: 0xff99_0000,
            },
            0,
        ),
        (
            Need::Load {
                word: low,
                mask: Mask::new(15),
                labels: AQ,
                reserve: true,
            },
            0x1234_5678,
        ),
        (
            Need::Rmw {
                word: low,
                op: AmoOp::Sc,
                operand: 0xffff_ff99,
                labels: RL,
            },
            1,
        ),
        (
            Need::Rmw {
                word: low,
                op: AmoOp::Add,
                operand: 1,
                labels: NONE,
            },
            0x8000_0000,
        ),
        (Need::Fence { waits: true }, 0),
        (Need::Fence { waits: false }, 0),
        (Need::Fence { waits: false }, 0),
        (
            Need::Hint {
                kind: HintKind::Exclusive,
                address: 0x2_0020,
            },
            7,
        ),
        (Need::Alu, 0),
        (
            Need::Ask {
                word: lock,
                value: 0x10_0000,
            },
            0,
        ),
        (Need::Unlock { word: lock }, 5),
        (Need::Alu, 0),
        (Need::Alu, 0),
        (Need::Put { byte: 1 }, 0),
        (Need::Alu, 0),
        (
            Need::Stop {
                end: End::Exited(1),
            },
            0,
        ),
        (Need::Rest, 0),
    ];
    for (need, answer) in steps {
        assert_eq!(rt; step(&mut hart, &image, &topology, answer), need);
    }
    let registers = [
        (0, 0),
        (1, 0x1_0040),
        (6, 0xffff_ff99),
        (7, 0x1234_5678),
        (28, 1),
        (29, 0x8000_0000),
        (30, 0),
        (31, 5),
    ];
    for (i, value) in registers {
        assert_eq!(rt; hart.reg(i), value, "x{i}");
    }
    assert_eq!(rt; hart.pc(), 0x1_0050);
    assert_eq!(rt; hart.retired(), 20);
    assert_eq!(rt; hart.end(), End::Exited(1));
    Ok(())
}

#[test]
fn each_trap(rt: HostRuntime) -> Result<(), Fail> {
    let code = 0x0001_0437; // lui s0,0x10
    let locks = 0x0010_0437; // lui s0,0x100
    let table = [
        (locks, 0x0014_2283, Trap::Misaligned, 0x10_0001), // lw t0,1(s0)
        (locks, 0x0004_2283, Trap::LockUse, 0x10_0000), // lw t0,0(s0)
        (locks, 0x1004_2283, Trap::Unmapped, 0x10_0100), // lw t0,256(s0)
        (locks, 0x1004_22af, Trap::LockUse, 0x10_0000), // lr.w t0,(s0)
        (locks, 0x1854_22af, Trap::LockUse, 0x10_0000), // sc.w t0,t0,(s0)
        (locks, 0x0c04_22af, Trap::LockUse, 0x10_0000), // amoswap.w.aq t0,zero,(s0)
        (locks, 0x0a84_22af, Trap::LockUse, 0x10_0000), // amoswap.w.rl t0,s0,(s0)
        (locks, 0x0e84_22af, Trap::LockUse, 0x10_0000), // amoswap.w.aqrl t0,s0,(s0)
        (locks, 0x0484_22af, Trap::LockUse, 0x10_0000), // amoadd.w.aq t0,s0,(s0)
        (code, 0x1854_22af, Trap::ReadOnly, 0x1_0000), // sc.w t0,t0,(s0)
        (code, 0x0064_02e7, Trap::Misaligned, 0x1_0006), // jalr t0,6(s0)
        (code, 0x0000_0073, Trap::BadCall, 0), // ecall
        (code, 0x0010_0073, Trap::Break, 0), // ebreak
        (code, 0x0000_0000, Trap::Illegal, 0),
        (code, 0x0400_0033, Trap::Illegal, 0x0400_0033), // funct7 2
        (code, 0x0804_0067, Trap::Fetch, 0x1_0080), // jalr zero,128(s0)
    ];
    let topology = Topology::simple(1, 1, 3).expect(&rt, "a topology");
    for (first, second, cause, value) in table {
        let image = image_of(rt.alloc(), &[first, second])?;
        let mut hart = Hart::new(&image, &topology, HartId(0));
        for _ in 0..3 {
            step(&mut hart, &image, &topology, 0);
        }
        assert_eq!(rt;
            hart.end(),
            End::Trapped { cause, value },
            "at {second:08x}"
        );
        assert_eq!(rt; hart.reg(5), 0, "at {second:08x}");
    }
    Ok(())
}
