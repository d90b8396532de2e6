//! The memory that a run opens with.
ghost use Rattle.std.specs.Prelude.{◌≡◌, ◌+◌, ◌*◌, ◌/◌, ◌<◌, ◌≤◌, IfOk, length, map, vec_len};
ghost use Rattle.std.specs.List.{range_with_len};
ghost use Rattle.elf_load.specs.Image.{words_among};
ghost use Rattle.elf_load.specs.Opening.{IsOpening, IsPut};
ghost use Rattle.elf_load.specs.Touched.{word_in};

use crate::memory_map::MemoryMap;
use byteorder::{ByteOrder, LittleEndian};
use dash_base::{OutOfMemory, Segment};
use std::alloc::Global;

/// The words of memory.
#[tactic(auto, using(crate::proofs::Opened::opened_words))]
pub fn words(alloc: Global, segments: &[Segment], map: MemoryMap) -> Result<Vec<u32>, OutOfMemory>
    ensures words { IfOk result (λ words. words.items ≡ words_among segments.now map) }
    ensures len { IfOk result (λ words. vec_len words * 4 ≡ map.size) }
{
    let bytes = memory_bytes(alloc, segments, map)?;
    Ok(words_in(alloc, bytes.as_slice(), map.size / 4)?)
}

/// Its bytes: zeros, and over them those of each segment, from the last to the first.
fn memory_bytes(alloc: Global, segments: &[Segment], map: MemoryMap) -> Result<Vec<u8>, OutOfMemory>
    ensures each { IfOk result (λ bytes. IsOpening segments.now map bytes.items) }
    ensures len { IfOk result (λ bytes. vec_len bytes ≡ map.size) }
{
    let mut bytes = vec![in alloc; 0u8; map.size as usize]?;
    let mut left = segments.len();
    while left > 0 {
        left -= 1;
        put(&mut bytes, &segments[left], map);
    }
    Ok(bytes)
}

/// Puts the bytes of a segment over those of memory, where they lie in it.
fn put(bytes: &mut Vec<u8>, segment: &Segment, map: MemoryMap)
    requires { vec_len bytes.old ≡ map.size }
    ensures each { IsPut segment.now map bytes.old.items bytes.new.items }
    ensures len { vec_len bytes.new ≡ map.size }
{
    let base = u64::from(map.base);
    let first = u64::from(segment.vaddr);
    let start = first.max(base);
    let end = (first + segment.bytes.len() as u64).min(base + u64::from(map.size));
    for address in start..end {
        bytes[(address - base) as usize] = segment.bytes[(address - first) as usize];
    }
}

/// The first words in bytes, the lowest byte of each first.
fn words_in(alloc: Global, bytes: &[u8], count: u32) -> Result<Vec<u32>, OutOfMemory>
    requires { 4 * count ≤ length bytes.now }
    ensures words { IfOk result (λ words. words.items ≡ map (λ i. word_in bytes.now (4 * i)) (range_with_len 0 count)) }
    ensures len { IfOk result (λ words. vec_len words ≡ count) }
{
    Ok(
        (0..count)
            .map(|i| word_in(bytes, 4 * i as usize))
            .collect(alloc)?,
    )
}

/// The word of four bytes from a place on, the lowest first.
fn word_in(bytes: &[u8], place: usize) -> u32
    requires { place + 4 ≤ length bytes.now }
    ensures { result ≡ word_in bytes.now place }
{
    LittleEndian::read_u32(&bytes[place..])
}
