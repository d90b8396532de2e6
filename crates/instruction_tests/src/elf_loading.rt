//! Files written out by hand, by the fields of the System V ABI.

use elf_load::{LoadRefusal, MemoryMap, load};
use std::alloc::{AllocError, Global};
use std::test::Fail;

/// The headers of a file with one segment of 32 bytes, at 0x10000 in memory and at 84 in the file.
static HEADERS: [u8; 84] = [
    0x7f, 0x45, 0x4c, 0x46, 1, 1, 1, 0, 0, 0, 0, 0, 0, 0, 0, 0, // e_ident
    2, 0, 243, 0, 1, 0, 0, 0, // e_type, e_machine, e_version
    0, 0, 1, 0, 52, 0, 0, 0, 0, 0, 0, 0, // e_entry, e_phoff, e_shoff
    0, 0, 0, 0, 52, 0, 32, 0, 1, 0, // e_flags, e_ehsize, e_phentsize, e_phnum
    0, 0, 0, 0, 0, 0, // e_shentsize, e_shnum, e_shstrndx
    1, 0, 0, 0, 84, 0, 0, 0, // p_type, p_offset
    0, 0, 1, 0, 0, 0, 1, 0, // p_vaddr, p_paddr
    32, 0, 0, 0, 32, 0, 0, 0, // p_filesz, p_memsz
    5, 0, 0, 0, 1, 0, 0, 0, // p_flags, p_align
];

/// Its instructions: the program prints "ok" and exits.
static WORDS: [u32; 8] = [
    0x06f0_0513,
    0x0010_0893,
    0x0000_0073,
    0x06b0_0513,
    0x0000_0073,
    0x0000_0513,
    0x05d0_0893,
    0x0000_0073,
];

const MEMORY: MemoryMap = MemoryMap {
    base: 0,
    size: 0x10_0000,
};

fn file(alloc: Global) -> Result<Vec<u8>, AllocError> {
    let mut bytes = Vec::from_slice(alloc, &HEADERS)?;
    for word in &WORDS {
        bytes.extend_from_slice(&word.to_le_bytes())?;
    }
    Ok(bytes)
}

#[test]
fn an_image_has_its_words_where_they_were_linked(rt: HostRuntime) -> Result<(), Fail> {
    let bytes = file(rt.alloc())?;
    let image = load(rt.alloc(), &bytes, MEMORY)?;
    assert_eq!(rt; image.entry(), 0x1_0000);
    assert_eq!(rt; image.segments().len(), 1);
    assert_eq!(rt; image.fetch(0x1_0000), Some(0x06f0_0513));
    assert_eq!(rt; image.fetch(0x1_001c), Some(0x0000_0073));
    assert_eq!(rt; image.fetch(0x1_0020), None);
    assert_eq!(rt; image.fetch(0xfffe), None);
    assert_eq!(rt; image.byte(0x1_0003), 0x06);
    assert_eq!(rt; image.byte(0x1_0020), 0);
    assert_eq!(rt; image.opening_word(0x1_0004), 0x0010_0893);
    assert_eq!(rt; image.opening_word(0xfffe), 0x0513_0000);
    assert!(rt; !image.writable(0xffff, 2));
    assert!(rt; image.writable(0x1_0020, 4));
    let words = image.opening_words(rt.alloc(), MEMORY)?;
    assert_eq!(rt; words.len(), 0x4_0000);
    assert_eq!(rt; words.get(0x4003).copied(), Some(0x06b0_0513));
    let copied = image.copy(rt.alloc())?;
    assert_eq!(rt; copied.entry(), image.entry());
    assert_eq!(rt; copied.segments().len(), image.segments().len());
    Ok(())
}

#[test]
fn each_field_that_counts_is_looked_at(rt: HostRuntime) -> Result<(), Fail> {
    let edits: [(usize, u8, Option<LoadRefusal>); 25] = [
        (3, 0x47, Some(LoadRefusal::NotElf)),
        (31, 1, Some(LoadRefusal::Short { at: 116 })),
        (44, 3, Some(LoadRefusal::Short { at: 116 })),
        (4, 2, Some(LoadRefusal::NotClass32Little)),
        (5, 2, Some(LoadRefusal::NotClass32Little)),
        (19, 1, Some(LoadRefusal::NotRiscv)),
        (16, 3, Some(LoadRefusal::NotExec)),
        (36, 1, Some(LoadRefusal::Compressed)),
        (36, 8, Some(LoadRefusal::Reduced)),
        (42, 40, Some(LoadRefusal::HeaderSize { size: 40 })),
        (56, 85, Some(LoadRefusal::SegmentOutOfFile { i: 0 })),
        (72, 31, Some(LoadRefusal::FileSizeAboveMemory { i: 0 })),
        (63, 1, Some(LoadRefusal::SegmentOutOfMemory { i: 0 })),
        (44, 0, Some(LoadRefusal::NoSegment)),
        (52, 6, Some(LoadRefusal::NoSegment)),
        (
            24,
            2,
            Some(LoadRefusal::EntryNotExecutable { entry: 0x1_0002 }),
        ),
        (
            24,
            32,
            Some(LoadRefusal::EntryNotExecutable { entry: 0x1_0020 }),
        ),
        (
            25,
            255,
            Some(LoadRefusal::EntryNotExecutable { entry: 0x1_ff00 }),
        ),
        (
            76,
            6,
            Some(LoadRefusal::EntryNotExecutable { entry: 0x1_0000 }),
        ),
        (6, 9, None),
        (36, 4, None),
        (44, 2, None),
        (64, 9, None),
        (68, 0, None),
        (72, 33, None),
    ];
    for (place, value, refusal) in edits {
        let mut bytes = file(rt.alloc())?;
        assert!(rt; place < bytes.len());
        bytes[place] = value;
        assert_eq!(rt;
            load(rt.alloc(), &bytes, MEMORY).err(),
            refusal,
            "byte {place}"
        );
    }
    Ok(())
}

/// A program header: its type, place in the file, address, sizes in the file and in memory, and flags.
type Header = [u32; 6];

/// A file with these program headers, and 64 bytes 0x13 behind them.
fn file_of(alloc: Global, entry: u32, headers: &[Header]) -> Result<Vec<u8>, AllocError> {
    let count = (headers.len() % 256) as u16;
    let mut bytes = Vec::from_slice(alloc, &HEADERS[..24])?;
    bytes.extend_from_slice(&entry.to_le_bytes())?;
    bytes.extend_from_slice(&HEADERS[28..44])?;
    bytes.extend_from_slice(&count.to_le_bytes())?;
    bytes.extend_from_slice(&HEADERS[46..52])?;
    for [kind, offset, vaddr, filesz, memsz, flags] in headers {
        for field in [*kind, *offset, *vaddr, 9, *filesz, *memsz, *flags, 3] {
            bytes.extend_from_slice(&field.to_le_bytes())?;
        }
    }
    bytes.extend_from_slice(&[0x13; 64])?;
    Ok(bytes)
}

#[test]
fn segments_are_refused_at_the_least_header(rt: HostRuntime) -> Result<(), Fail> {
    let cases: [(&[Header], Option<LoadRefusal>); 16] = [
        // as a linker lays a program out, with headers of other types
        (
            &[
                [0x7000_0003, 0xffff_ffff, 0, 0xffff_ffff, 0, 4],
                [1, 0, 0x1000, 64, 64, 5],
                [1, 64, 0x2000, 8, 4096, 6],
                [0x6474_e551, 0, 0, 0, 0, 6],
            ],
            None,
        ),
        // the headers that are passed over leave no segment
        (
            &[
                [1, 0xffff_ffff, 0xffff_ffff, 0, 0, 5],
                [2, 0, 0x1000, 16, 16, 5],
            ],
            Some(LoadRefusal::NoSegment),
        ),
        (&[], Some(LoadRefusal::NoSegment)),
        // the entry in a part that is not in the file, and at the end of what is
        (&[[1, 0, 0x1000, 0, 4, 5]], None),
        (
            &[[1, 0, 0x1000, 0, 3, 5]],
            Some(LoadRefusal::EntryNotExecutable { entry: 0x1000 }),
        ),
        // the ends of file and of memory
        (&[[1, 148, 0x1000, 0, 16, 5]], None),
        (
            &[[1, 149, 0x1000, 0, 16, 5]],
            Some(LoadRefusal::SegmentOutOfFile { i: 0 }),
        ),
        (
            &[[1, 0, 0x1000, 16, 16, 5], [1, 0xffff_ffff, 0x2000, 1, 1, 4]],
            Some(LoadRefusal::SegmentOutOfFile { i: 1 }),
        ),
        (
            &[[1, 0, 0x1000, 16, 16, 5], [1, 0, 0xf_fff0, 16, 16, 4]],
            None,
        ),
        (
            &[[1, 0, 0x1000, 16, 16, 5], [1, 0, 0xffff_fff0, 16, 0x20, 4]],
            Some(LoadRefusal::SegmentOutOfMemory { i: 1 }),
        ),
        // a lower number before a lower header
        (
            &[[1, 0, 0x1000, 8, 0, 5], [1, 0, 0x2000, 999, 999, 5]],
            Some(LoadRefusal::SegmentOutOfFile { i: 1 }),
        ),
        // side by side, in either order
        (&[[1, 0, 0x1010, 0, 16, 4], [1, 0, 0x1000, 16, 16, 5]], None),
        // two that overlap, in either order
        (
            &[
                [4, 0, 0x1000, 16, 16, 5],
                [1, 0, 0x1000, 16, 16, 5],
                [1, 0, 0x100f, 0, 16, 4],
            ],
            Some(LoadRefusal::Overlap { i: 1, j: 2 }),
        ),
        (
            &[[1, 0, 0x100f, 0, 16, 4], [1, 0, 0x1000, 16, 16, 5]],
            Some(LoadRefusal::Overlap { i: 0, j: 1 }),
        ),
        // by address, the first and the last of three overlap, and no other with the first header's
        (
            &[
                [1, 0, 0x8000, 0, 16, 4],
                [1, 0, 0x1000, 0, 0x8000, 5],
                [1, 0, 0x2000, 0, 16, 4],
            ],
            Some(LoadRefusal::Overlap { i: 0, j: 1 }),
        ),
        (
            &[
                [1, 0, 0xa000, 0, 16, 4],
                [1, 0, 0x1000, 0, 0x8000, 5],
                [1, 0, 0x9000, 0, 16, 4],
                [1, 0, 0x8ff1, 0, 16, 4],
                [1, 0, 0x2000, 0, 16, 4],
            ],
            Some(LoadRefusal::Overlap { i: 1, j: 3 }),
        ),
    ];
    for (headers, refusal) in cases {
        let bytes = file_of(rt.alloc(), 0x1000, headers)?;
        assert_eq!(rt; load(rt.alloc(), &bytes, MEMORY).err(), refusal);
    }
    Ok(())
}

#[test]
fn segments_have_their_bytes_and_zeros_behind_them(rt: HostRuntime) -> Result<(), Fail> {
    let headers = [
        [6, 0, 0, 0, 0, 4],
        [1, 116, 0x2004, 4, 12, 6],
        [1, 146, 0x1000, 6, 16, 5],
    ];
    let bytes = file_of(rt.alloc(), 0x1008, &headers)?;
    let image = load(rt.alloc(), &bytes, MEMORY)?;
    assert_eq!(rt; image.segments().len(), 2);
    assert_eq!(rt; image.entry(), 0x1008);
    assert_eq!(rt; image.fetch(0x1000), Some(0x1313_0000));
    assert_eq!(rt; image.fetch(0x1004), Some(0x0000_1313));
    assert_eq!(rt; image.fetch(0x1008), Some(0));
    assert_eq!(rt; image.fetch(0x100c), Some(0));
    assert_eq!(rt; image.fetch(0x100e), None);
    assert_eq!(rt; image.fetch(0x2004), None);
    assert!(rt; image.writable(0x2004, 12));
    assert!(rt; !image.writable(0x100f, 1));
    let words = image.opening_words(rt.alloc(), MEMORY)?;
    for (word, value) in [
        (0x3ff, 0),
        (0x400, 0x1313_0000),
        (0x401, 0x0000_1313),
        (0x402, 0),
        (0x800, 0),
        (0x801, 1),
        (0x802, 0),
    ] {
        assert_eq!(rt; words.get(word).copied(), Some(value), "word {word}");
    }
    Ok(())
}

#[test]
fn forty_segments_are_loaded(rt: HostRuntime) -> Result<(), Fail> {
    let mut headers = Vec::new(rt.alloc());
    for i in 0..40_u32 {
        headers.push([1, 0, 0x1000 + 16 * i, 4, 8, 5])?;
    }
    let bytes = file_of(rt.alloc(), 0x1270, headers.as_slice())?;
    let image = load(rt.alloc(), &bytes, MEMORY)?;
    assert_eq!(rt; image.segments().len(), 40);
    for address in [0x1000, 0x1100, 0x1270] {
        assert_eq!(rt; image.fetch(address), Some(0x464c_457f), "at {address}");
    }
    Ok(())
}

#[test]
fn a_file_that_ends_early_is_short(rt: HostRuntime) -> Result<(), Fail> {
    let refusal = load(rt.alloc(), &HEADERS[..60], MEMORY).err();
    assert_eq!(rt; refusal, Some(LoadRefusal::Short { at: 60 }));
    let refusal = load(rt.alloc(), &[], MEMORY).err();
    assert_eq!(rt; refusal, Some(LoadRefusal::Short { at: 0 }));
    Ok(())
}
