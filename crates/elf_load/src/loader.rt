//! The loader.
ghost use Rattle.std.specs.Prelude.{◌≡◌, ◌+◌, ◌≤◌, All, map, IfOk, IfErr, length};
ghost use Rattle.elf_load.specs.Header.{file_header};
ghost use Rattle.elf_load.specs.Refusal.{IsLoadable};
ghost use Rattle.elf_load.specs.Loader.{image_of, segment_of, Refuses};
ghost use Rattle.elf_load.specs.Table.{HasBytes};

use crate::file_checks::file_refusal;
use crate::header::{FileHeader, ProgramHeader};
use crate::image::Image;
use crate::memory_map::MemoryMap;
use crate::refusal::LoadRefusal;
use crate::segment_checks::segment_refusal;
use crate::segment_table::{Numbered, segment_table};
use dash_base::{OutOfMemory, Segment};
use std::alloc::Global;

/// Reads an executable file (System V ABI, "ELF Header" and "Program Header") whose segments are to lie
/// in the memory that `map` says.
///
/// Only program headers of type `PT_LOAD` count, and of these only those with bytes in the file or in
/// memory: the others are passed over, whatever they hold. So is what is not named below, as sections,
/// physical addresses, alignments and the other bits of `e_flags`. A segment may be both writable and
/// executable.
///
/// # Errors
///
/// The first of these that applies, at the least program header. Sums don't wrap.
///
/// - `Short { at }`: the file has fewer than 52 bytes, or fewer than `e_phoff + 32 * e_phnum`. `at` is
///   its length.
/// - `NotElf`: the first four bytes are not 7F 45 4C 46.
/// - `NotClass32Little`: byte 4 is not 1, or byte 5 is not 1.
/// - `NotRiscv`: `e_machine` is not 243.
/// - `NotExec`: `e_type` is not 2.
/// - `Compressed`: bit 0 of `e_flags` is set.
/// - `Reduced`: bit 3 of `e_flags` is set.
/// - `HeaderSize { size }`: `e_phnum` is not 0, and `e_phentsize`, which is `size`, is not 32.
/// - `SegmentOutOfFile { i }`: `p_offset + p_filesz` is above the length of the file.
/// - `FileSizeAboveMemory { i }`: `p_filesz` is above `p_memsz`.
/// - `SegmentOutOfMemory { i }`: `p_vaddr` is below `map.base`, or `p_vaddr + p_memsz` above
///   `map.base + map.size`.
/// - `Overlap { i, j }`: segments `i` and `j`, `i` below `j`, share an address.
/// - `NoSegment`: no program header counts.
/// - `EntryNotExecutable { entry }`: `e_entry` is no multiple of 4, or its four bytes are not all in one
///   segment that has bit 0 of `p_flags` set.
/// - `OutOfMemory`, which may come in place of any of these, and of an image.
pub fn load(alloc: Global, bytes: &[u8], map: MemoryMap) -> Result<Image, LoadRefusal>
    ensures ok { IfOk result (λ image.
        IsLoadable bytes.now map × (image ≡ image_of bytes.now)) }
    ensures err { IfErr result (Refuses bytes.now map) }
{
    if let Some(refusal) = file_refusal(bytes) {
        return Err(refusal);
    }
    let segments = segment_table(alloc, bytes)?;
    match segment_refusal(alloc, bytes, segments.as_slice(), map)? {
        Some(refusal) => Err(refusal),
        None => Ok(image(alloc, bytes, segments.as_slice())?),
    }
}

/// The image of a file with these segments, whose bytes are all there.
fn image(alloc: Global, bytes: &[u8], headers: &[Numbered]) -> Result<Image, OutOfMemory>
    requires header { 52 ≤ length bytes.now }
    requires segments { All (HasBytes (length bytes.now)) headers.now }
    ensures { IfOk result (λ image. image ≡ record { entry = (file_header bytes.now).e_entry; segments = map (λ s. segment_of bytes.now s.header) headers.now }) }
{
    let mut segments: Vec<Segment> = Vec::with_capacity(alloc, headers.len())?;
    for numbered in headers {
        segments.push(segment(alloc, bytes, numbered.header)?)?;
    }
    Ok(Image::new(FileHeader::read(bytes).e_entry, segments))
}

/// The segment of a program header, with its bytes.
fn segment(alloc: Global, bytes: &[u8], header: ProgramHeader) -> Result<Segment, OutOfMemory>
    requires within { header.p_offset + header.p_filesz ≤ length bytes.now }
    requires full { header.p_filesz ≤ header.p_memsz }
    ensures { IfOk result (λ segment. segment ≡ segment_of bytes.now header) }
{
    let start = header.p_offset as usize;
    let end = start + header.p_filesz as usize;
    Ok(Segment {
        vaddr: header.p_vaddr,
        memsz: header.p_memsz,
        flags: header.p_flags,
        bytes: Vec::from_slice(alloc, &bytes[start..end])?,
    })
}
