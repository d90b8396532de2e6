//! Segments that share an address.
ghost use Rattle.std.specs.Prelude.{◌≡◌, option_copied, find, if◌then◌else◌, None, IfOk, IsPermutation};
ghost use Rattle.std.specs.List.Sorted.{IsNonDecreasingBy};
ghost use Rattle.elf_load.specs.Table.{IsTable, clashes, first_overlap, pair_of, rises_from, begins_before, lower, least_clashing_from};
ghost use Rattle.elf_load.specs.declared.segment_table.Numbered.{Numbered};

use crate::segment_table::Numbered;
use dash_base::OutOfMemory;
use std::alloc::Global;

/// The numbers of the first segment that shares an address with another, and of the first other one
/// that it shares one with.
///
/// Segments in rising order of their addresses take one pass; others are sorted by them.
pub fn first_overlap(
    alloc: Global,
    segments: &[Numbered],
) -> Result<Option<(u32, u32)>, OutOfMemory>
    requires { IsTable segments.now }
    ensures { IfOk result (λ pair. pair ≡ first_overlap segments.now) }
{
    if rises(segments) {
        return Ok(None);
    }
    let sorted = by_address(alloc, segments)?;
    let first = least_clashing(sorted.as_slice());
    Ok(pair(segments, first))
}

/// The number of a segment, and that of the first one that shares an address with it.
fn pair(segments: &[Numbered], first: Option<Numbered>) -> Option<(u32, u32)>
    ensures { result ≡ pair_of segments.now first }
{
    match first {
        None => None,
        Some(first) => match first_sharing(segments, &first) {
            None => None,
            Some(second) => Some((first.number, second.number)),
        },
    }
}

/// The first other segment that shares an address with this one.
fn first_sharing<'a>(segments: &'a [Numbered], segment: &Numbered) -> Option<&'a Numbered>
    ensures { option_copied result ≡ find (clashes segment.now) segments.now }
{
    segments.iter().find(|other| clashes(segment, other))
}

/// Whether each segment begins where the one before it ends, or behind.
fn rises(segments: &[Numbered]) -> bool
    ensures { result ≡ rises_from 0 segments.now }
{
    let mut reach = 0u64;
    for segment in segments {
        if u64::from(segment.header.p_vaddr) < reach {
            return false;
        }
        reach = segment.header.segment_end();
    }
    true
}

/// The segments in the order of their addresses.
fn by_address(alloc: Global, segments: &[Numbered]) -> Result<Vec<Numbered>, OutOfMemory>
    ensures same { IfOk result (λ sorted. IsPermutation segments.now sorted.items) }
    ensures order { IfOk result (λ sorted. IsNonDecreasingBy (λ (s : Numbered). (s.header).p_vaddr) sorted.items) }
{
    let mut sorted: Vec<Numbered> = Vec::from_slice(alloc, segments)?;
    sorted.sort_by_key(|segment| segment.header.p_vaddr)?;
    Ok(sorted)
}

/// Of segments in the order of their addresses, the one of the least number that shares an address with
/// another.
fn least_clashing(sorted: &[Numbered]) -> Option<Numbered>
    ensures { result ≡ least_clashing_from 0 None sorted.now }
{
    let mut least: Option<Numbered> = None;
    let mut reach = 0u64;
    let mut rest = sorted;
    while let [segment, later @ ..] = rest {
        let end = segment.header.segment_end();
        let clashes = u64::from(segment.header.p_vaddr) < reach || begins_before(later, end);
        least = lower_where(clashes, least, segment);
        reach = reach.max(end);
        rest = later;
    }
    least
}

/// Whether the first of these segments begins before an address.
fn begins_before(segments: &[Numbered], end: u64) -> bool
    ensures { result ≡ begins_before end segments.now }
{
    match segments {
        [first, ..] => u64::from(first.header.p_vaddr) < end,
        [] => false,
    }
}

/// Of the two the one of the lower number, where the second counts.
fn lower_where(counts: bool, least: Option<Numbered>, segment: &Numbered) -> Option<Numbered>
    ensures { result ≡ (if counts then lower least segment.now else least) }
{
    match least {
        _ if !counts => least,
        Some(lowest) if lowest.number <= segment.number => least,
        _ => Some(*segment),
    }
}

/// Whether the segments are two, and share an address.
fn clashes(segment: &Numbered, other: &Numbered) -> bool
    ensures { result ≡ clashes segment.now other.now }
{
    let start = segment.header.p_vaddr.max(other.header.p_vaddr);
    let end = segment.header.segment_end().min(other.header.segment_end());
    segment.number != other.number && u64::from(start) < end
}
