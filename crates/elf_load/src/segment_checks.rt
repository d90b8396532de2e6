//! The refusals that the segments decide.
ghost use Rattle.std.specs.Prelude.{◌≡◌, false, IfOk, MatchOption};
ghost use Rattle.std.specs.List.{list_any};
ghost use Rattle.elf_load.specs.Refusal.{is_short, is_out_of_file, is_above_memory_size, is_out_of_memory, IsFirstRefusal, IsLoadable};
ghost use Rattle.elf_load.specs.Stages.{IsClear};
ghost use Rattle.elf_load.specs.declared.memory_map.MemoryMap.{MemoryMap};
ghost use Rattle.elf_load.specs.Table.{numbered_segments, first_failing, has_word_at, is_executable_among};

use crate::header::{FileHeader, ProgramHeader};
use crate::memory_map::MemoryMap;
use crate::overlap::first_overlap;
use crate::refusal::LoadRefusal;
use crate::segment_table::Numbered;
use dash_base::{OutOfMemory, Segment};
use std::alloc::Global;

/// The first of the refusals 9 to 14 that applies, to a file with these segments to which none of those
/// before does.
pub fn segment_refusal(
    alloc: Global,
    bytes: &[u8],
    segments: &[Numbered],
    map: MemoryMap,
) -> Result<Option<LoadRefusal>, OutOfMemory>
    requires whole { is_short bytes.now ≡ false }
    requires clear { IsClear 9 bytes.now map }
    requires table { segments.now ≡ numbered_segments bytes.now }
    ensures { IfOk result (λ refusal. MatchOption refusal (IsLoadable bytes.now map) (IsFirstRefusal bytes.now map)) }
{
    if let Some(refusal) = bounds_refusal(bytes, segments, map) {
        return Ok(Some(refusal));
    }
    match first_overlap(alloc, segments)? {
        Some((i, j)) => Ok(Some(LoadRefusal::Overlap { i, j })),
        None => Ok(entry_refusal(bytes, segments)),
    }
}

/// The first of the refusals 9 to 11 that applies.
fn bounds_refusal(bytes: &[u8], segments: &[Numbered], map: MemoryMap) -> Option<LoadRefusal>
    requires clear { IsClear 9 bytes.now map }
    requires table { segments.now ≡ numbered_segments bytes.now }
    ensures { MatchOption result (IsClear 12 bytes.now map) (IsFirstRefusal bytes.now map) }
{
    if let Some(i) = first_out_of_file(segments, bytes.len()) {
        Some(LoadRefusal::SegmentOutOfFile { i })
    } else if let Some(i) = first_above_memory_size(segments) {
        Some(LoadRefusal::FileSizeAboveMemory { i })
    } else if let Some(i) = first_out_of_memory(segments, map) {
        Some(LoadRefusal::SegmentOutOfMemory { i })
    } else {
        None
    }
}

/// The first of the refusals 13 and 14 that applies.
fn entry_refusal(bytes: &[u8], segments: &[Numbered]) -> Option<LoadRefusal>
    requires whole { is_short bytes.now ≡ false }
    requires table { segments.now ≡ numbered_segments bytes.now }
    ensures { (map : MemoryMap) → IsClear 13 bytes.now map → MatchOption result (IsLoadable bytes.now map) (IsFirstRefusal bytes.now map) }
{
    let entry = FileHeader::read(bytes).e_entry;
    if segments.is_empty() {
        Some(LoadRefusal::NoSegment)
    } else if !is_executable(segments, entry) {
        Some(LoadRefusal::EntryNotExecutable { entry })
    } else {
        None
    }
}

/// The number of the first segment whose bytes end behind the end of a file of `len` bytes.
fn first_out_of_file(segments: &[Numbered], len: usize) -> Option<u32>
    ensures { result ≡ first_failing (is_out_of_file len) segments.now }
{
    segments
        .iter()
        .find(|segment| is_out_of_file(segment.header, len))
        .map(|segment| segment.number)
}

/// The number of the first segment that has more bytes in the file than in memory.
fn first_above_memory_size(segments: &[Numbered]) -> Option<u32>
    ensures { result ≡ first_failing is_above_memory_size segments.now }
{
    segments
        .iter()
        .find(|segment| is_above_memory_size(segment.header))
        .map(|segment| segment.number)
}

/// The number of the first segment that begins before memory or ends behind it.
fn first_out_of_memory(segments: &[Numbered], map: MemoryMap) -> Option<u32>
    ensures { result ≡ first_failing (is_out_of_memory map) segments.now }
{
    segments
        .iter()
        .find(|segment| is_out_of_memory(segment.header, map))
        .map(|segment| segment.number)
}

/// Whether an address is a multiple of 4, and one segment that may be executed has all four bytes from
/// it on.
fn is_executable(segments: &[Numbered], address: u32) -> bool
    ensures { result ≡ is_executable_among segments.now address }
{
    address % 4 == 0 && is_word_of_code(segments, address)
}

/// Whether one segment that may be executed has all four bytes from an address on.
fn is_word_of_code(segments: &[Numbered], address: u32) -> bool
    ensures { result ≡ list_any (λ s. has_word_at address s.header) segments.now }
{
    segments
        .iter()
        .any(|segment| has_word_at(segment.header, address))
}

fn is_out_of_file(header: ProgramHeader, len: usize) -> bool
    ensures { result ≡ is_out_of_file len header }
{
    len < header.p_offset as usize + header.p_filesz as usize
}

fn is_above_memory_size(header: ProgramHeader) -> bool
    ensures { result ≡ is_above_memory_size header }
{
    header.p_memsz < header.p_filesz
}

fn is_out_of_memory(header: ProgramHeader, map: MemoryMap) -> bool
    ensures { result ≡ is_out_of_memory map header }
{
    header.p_vaddr < map.base || u64::from(map.base) + u64::from(map.size) < header.segment_end()
}

fn has_word_at(header: ProgramHeader, address: u32) -> bool
    ensures { result ≡ has_word_at address header }
{
    header.p_flags & Segment::EXECUTE != 0
        && header.p_vaddr <= address
        && u64::from(address) + 4 <= header.segment_end()
}
