//! Files beside bytes that were written out by hand, and what the loader makes of them.
ghost use Rattle.std.specs.Prelude.{◌≡◌, ◌≤◌, IfOk, length};

use elf_load::{LoadRefusal, MemoryMap, load};
use rv32_encode::laws::load_of_write_elf;
use rv32_encode::{Program, Segment, write_elf};
use std::alloc::{AllocError, Global};
use std::test::Fail;

const MEMORY: MemoryMap = MemoryMap {
    base: 0,
    size: 0x10_0000,
};

/// A program that prints "ok" and exits.
static CODE: [u8; 32] = [
    0x13, 0x05, 0xf0, 0x06, // li a0,111
    0x93, 0x08, 0x10, 0x00, // li a7,1
    0x73, 0x00, 0x00, 0x00, // ecall
    0x13, 0x05, 0xb0, 0x06, // li a0,107
    0x73, 0x00, 0x00, 0x00, // ecall
    0x13, 0x05, 0x00, 0x00, // li a0,0
    0x93, 0x08, 0xd0, 0x05, // li a7,93
    0x73, 0x00, 0x00, 0x00, // ecall
];

/// Its file, without these bytes.
static HEADERS: [u8; 84] = [
    0x7f, 0x45, 0x4c, 0x46, 1, 1, 1, 0, 0, 0, 0, 0, 0, 0, 0, 0, // e_ident
    2, 0, 243, 0, 1, 0, 0, 0, // e_type, e_machine, e_version
    0, 0, 1, 0, 52, 0, 0, 0, 0, 0, 0, 0, // e_entry, e_phoff, e_shoff
    0, 0, 0, 0, 52, 0, 32, 0, 1, 0, // e_flags, e_ehsize, e_phentsize, e_phnum
    0, 0, 0, 0, 0, 0, // e_shentsize, e_shnum, e_shstrndx
    1, 0, 0, 0, 84, 0, 0, 0, // p_type, p_offset
    0, 0, 1, 0, 0, 0, 1, 0, // p_vaddr, p_paddr
    32, 0, 0, 0, 32, 0, 0, 0, // p_filesz, p_memsz
    5, 0, 0, 0, 1, 0, 0, 0, // p_flags, p_align
];

fn segment(
    alloc: Global,
    vaddr: u32,
    memsz: u32,
    flags: u32,
    bytes: &[u8],
) -> Result<Segment, AllocError>
    requires { length bytes.now ≤ memsz }
    ensures { IfOk result (λ segment. segment.bytes ≡ bytes.now) }
{
    Ok(Segment {
        vaddr,
        memsz,
        flags,
        bytes: Vec::from_slice(alloc, bytes)?,
    })
}

#[test]
#[tactic(auto, unfolding(rv32_encode::specs::Elf::contents))]
fn the_file_of_a_segment_has_each_byte(rt: HostRuntime) -> Result<(), Fail> {
    let mut segments = Vec::new(rt.alloc());
    segments.push(segment(rt.alloc(), 0x1_0000, 32, 5, &CODE)?)?;
    let program = Program {
        entry: 0x1_0000,
        segments,
    };
    let file = write_elf(rt.alloc(), &program)?;
    assert_eq!(rt; file.len(), 116);
    assert_eq!(rt; file.get(..84), Some(HEADERS.as_slice()));
    assert_eq!(rt; file.get(84..), Some(CODE.as_slice()));
    Ok(())
}

#[test]
#[tactic(auto, unfolding(rv32_encode::specs::Elf::contents))]
fn one_word_makes_88_bytes_and_is_loaded_again(rt: HostRuntime) -> Result<(), Fail> {
    let mut segments = Vec::new(rt.alloc());
    segments.push(segment(rt.alloc(), 0x1_0000, 4, 5, &[0x73, 0, 0, 0])?)?;
    let program = Program {
        entry: 0x1_0000,
        segments,
    };
    let file = write_elf(rt.alloc(), &program)?;
    assert_eq!(rt; file.len(), 88);
    let image = load(rt.alloc(), &file, MEMORY)?;
    assert_eq!(rt; image.entry(), 0x1_0000);
    assert_eq!(rt; image.segments().len(), 1);
    assert_eq!(rt; image.fetch(0x1_0000), Some(0x73));
    assert_eq!(rt; image.fetch(0x1_0004), None);
    Ok(())
}

#[test]
#[tactic(auto, unfolding(rv32_encode::specs::Elf::contents))]
fn segments_follow_each_other_and_empty_ones_are_not_loaded(rt: HostRuntime) -> Result<(), Fail> {
    let mut segments = Vec::new(rt.alloc());
    segments.push(segment(rt.alloc(), 0x2_0000, 0x1000, 6, &[1, 2, 3])?)?;
    segments.push(segment(rt.alloc(), 0xffff_ffff, 0, 7, &[])?)?;
    segments.push(segment(rt.alloc(), 0x1_0000, 4, 5, &[0x73, 0, 0, 0])?)?;
    let program = Program {
        entry: 0x1_0000,
        segments,
    };
    let file = write_elf(rt.alloc(), &program)?;
    assert_eq!(rt; file.len(), 52 + 3 * 32 + 7);
    // p_offset of each, and then the bytes
    assert_eq!(rt; file.get(56..60), Some([148, 0, 0, 0].as_slice()));
    assert_eq!(rt; file.get(88..92), Some([151, 0, 0, 0].as_slice()));
    assert_eq!(rt; file.get(120..124), Some([151, 0, 0, 0].as_slice()));
    assert_eq!(rt; file.get(148..), Some([1, 2, 3, 0x73, 0, 0, 0].as_slice()));
    let image = load_of_write_elf(rt.alloc(), &program, MEMORY)?;
    assert_eq!(rt; image.segments().len(), 2);
    assert_eq!(rt; image.opening_word(0x2_0000), 0x0003_0201);
    assert_eq!(rt; image.fetch(0x1_0000), Some(0x73));
    assert!(rt; image.writable(0x2_0ffc, 4));
    assert!(rt; !image.writable(0x1_0000, 4));
    Ok(())
}

#[test]
#[tactic(auto, unfolding(rv32_encode::specs::Elf::contents))]
fn a_program_without_segments_is_refused_as_it_is_read(rt: HostRuntime) -> Result<(), Fail> {
    let program = Program {
        entry: 0x1_0000,
        segments: Vec::new(rt.alloc()),
    };
    assert_eq!(rt; write_elf(rt.alloc(), &program)?.len(), 52);
    let refusal = load_of_write_elf(rt.alloc(), &program, MEMORY).err();
    assert_eq!(rt; refusal, Some(LoadRefusal::NoSegment));
    Ok(())
}
