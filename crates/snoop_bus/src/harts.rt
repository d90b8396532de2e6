//! The caches of all harts of a cluster, by local hart.
ghost use Rattle.std.specs.Prelude.{◌≡◌, ◌≢◌, ◌<◌, ◌≤◌, ◌==◌, length, slice_index_or, replicate, IfOk, None, if◌then◌else◌};
ghost use Rattle.cache_array.specs.View.{HasRoom};
ghost use Rattle.snoop_bus.specs.Caches.{CachesView, no_caches, caches_without, caches_shared};
ghost use Rattle.snoop_bus.specs.Shared.{gathered_holders, gathered_owner, gathered_copy};
ghost use Rattle.snoop_bus.specs.Changes.{EachBecomes, HasRoomAt, joined, taken, dropped};

use crate::hart_caches::HartCaches;
use dash_base::{Line, LineId, OutOfMemory};
use std::alloc::Global;

/// Empty caches for so many harts.
pub fn empty(alloc: Global, harts: u32, l1: u32, l2: u32) -> Result<Vec<HartCaches>, OutOfMemory>
    requires l1_some { 0 < l1 }
    requires l2_some { 0 < l2 }
    ensures { IfOk result (λ all. all.items ≡ replicate harts (no_caches l1 l2)) }
{
    let mut all = Vec::with_capacity(alloc, harts as usize)?;
    for _ in 0..harts {
        all.push(HartCaches::new(alloc, l1, l2)?)?;
    }
    Ok(all)
}

/// The harts that hold a line: bit `i` for the hart `i`.
pub fn holders(harts: &[HartCaches], line: LineId) -> u32
    requires { length harts.now ≤ 4 }
    ensures { result ≡ gathered_holders harts.now line.0 }
{
    let mut holders = 0;
    for (hart, caches) in harts.iter().enumerate() {
        if caches.holds(line) {
            holders |= 1 << hart;
        }
    }
    holders
}

/// The first hart that owns a line.
pub fn owner(harts: &[HartCaches], line: LineId) -> Option<u32>
    requires { length harts.now ≤ 4 }
    ensures { result ≡ gathered_owner 0 harts.now line.0 }
{
    for (hart, caches) in harts.iter().enumerate() {
        if caches.owns(line) {
            return Some(hart as u32);
        }
    }
    None
}

/// The copy of the first hart that holds a line.
pub fn copy(harts: &[HartCaches], line: LineId) -> Option<Line>
    ensures { result ≡ gathered_copy harts.now line.0 }
{
    for caches in harts {
        if let Some(copy) = caches.peek(line) {
            return Some(copy);
        }
    }
    None
}

/// Gives the hart a copy of a line that some hart holds, unless it has one.
pub fn join(harts: &mut [HartCaches], hart: usize, line: LineId)
    requires hart_in_range { hart < length harts.old }
    requires held { gathered_copy harts.old line.0 ≢ None }
    requires room { HasRoomAt harts.old hart line.0 }
    ensures { EachBecomes (joined harts.old hart line.0) harts.old harts.new }
{
    let copy = copy(harts, line).unwrap();
    let caches = &mut harts[hart];
    if !caches.holds(line) {
        caches.install(line, copy, false);
    }
}

/// Gives the hart a copy of a line, and clears the line from all others.
pub fn take(harts: &mut [HartCaches], hart: usize, line: LineId, copy: Line, own: bool)
    requires hart_in_range { hart < length harts.old }
    requires room { HasRoomAt harts.old hart line.0 }
    ensures { EachBecomes (taken hart line.0 copy own) harts.old harts.new }
{
    clear_others(harts, hart, line);
    let caches = &mut harts[hart];
    caches.install(line, copy, own);
}

/// Clears a line from one hart.
pub fn leave(harts: &mut [HartCaches], hart: usize, line: LineId)
    requires { hart < length harts.old }
    ensures { EachBecomes (dropped hart line.0) harts.old harts.new }
{
    let leaving = &mut harts[hart];
    leaving.clear(line);
}

/// Clears a line from all harts but one.
fn clear_others(harts: &mut [HartCaches], hart: usize, line: LineId)
    ensures { EachBecomes (λ k h. if k == hart then h else caches_without h line.0)
        harts.old harts.new }
{
    for (other, caches) in harts.iter_mut().enumerate() {
        if other != hart {
            caches.clear(line);
        }
    }
}

/// Clears a line from all harts.
pub fn clear(harts: &mut [HartCaches], line: LineId)
    ensures { EachBecomes (λ k h. caches_without h line.0) harts.old harts.new }
{
    for each in harts.iter_mut() {
        each.clear(line);
    }
}

/// Takes the ownership of a line from whichever hart has it.
pub fn disown(harts: &mut [HartCaches], line: LineId)
    ensures { EachBecomes (λ k h. caches_shared h line.0) harts.old harts.new }
{
    for caches in harts.iter_mut() {
        caches.disown(line);
    }
}
