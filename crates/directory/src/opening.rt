//! The lines of a home at the start of a run.
ghost use Rattle.std.specs.Prelude.{◌≡◌, ◌<◌, ◌≤◌, ◌+◌, ◌-◌, ◌*◌, IfOk, map, length};
ghost use Rattle.std.specs.List.{range_with_len};
ghost use Rattle.dash_base.specs.Places.{line_count};
ghost use Rattle.directory.specs.Opening.{opening_line, AreOpeningWords};
ghost use Rattle.directory.specs.Kept.{AreKept};

use crate::entry::EntryState;
use crate::home_line::HomeLine;
use dash_base::{ClusterId, Line, OutOfMemory, Topology};
use elf_load::{Image, MemoryMap};
use std::alloc::Global;

/// The words of memory, which is the image.
fn opening_words(alloc: Global, image: &Image, topology: &Topology) -> Result<Vec<u32>, OutOfMemory>
    ensures whole { IfOk result (λ words. 4 * length words.items ≡ topology.now.memory) }
    ensures each { IfOk result (λ words. AreOpeningWords image.now topology.now words.items) }
{
    let map = MemoryMap {
        base: topology.base,
        size: topology.memory,
    };
    Ok(image.opening_words(alloc, map)?)
}

/// A line as it is at the start, by the words of memory.
#[tactic(auto, unfolding(crate::specs::Opening::line_from))]
fn opening_line(image: &Image, topology: &Topology, words: &[u32], line: u32) -> HomeLine
    requires line { line < line_count topology.now }
    requires whole { 4 * length words.now ≡ topology.now.memory }
    requires each { AreOpeningWords image.now topology.now words.now }
    ensures { result ≡ opening_line image.now topology.now line }
{
    let first = 4 * line as usize;
    HomeLine {
        entry: EntryState::Uncached,
        content: Line {
            words: [
                words[first],
                words[first + 1],
                words[first + 2],
                words[first + 3],
            ],
            version: 0,
        },
    }
}

/// Each line whose home the cluster is, as it is at the start, in the order of their numbers.
pub fn opening_lines(
    alloc: Global,
    image: &Image,
    topology: &Topology,
    cluster: ClusterId,
) -> Result<Vec<HomeLine>, OutOfMemory>
    requires { cluster.0 < topology.now.clusters }
    ensures each { IfOk result (λ kept. kept.items ≡
        map (λ place. opening_line image.now topology.now (place * topology.now.clusters + cluster.0))
        (range_with_len 0 (length kept.items))) }
    ensures all { IfOk result (λ kept.
        AreKept cluster.0 topology.now.clusters (line_count topology.now) kept.items) }
{
    let count = (topology.line_count() - cluster.0).div_ceil(topology.clusters);
    let words = opening_words(alloc, image, topology)?;
    let mut kept = Vec::with_capacity(alloc, count as usize)?;
    for place in 0..count {
        let line = place * topology.clusters + cluster.0;
        kept.push(opening_line(image, topology, &words, line))?;
    }
    Ok(kept)
}
