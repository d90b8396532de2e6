//! What the workload comes to, without a run of it.
ghost use Rattle.std.specs.Prelude.{◌≡◌, ◌≤◌, ◌<◌, ◌+◌, ◌*◌, ℕ, IfOk, length, slice_index};
ghost use Rattle.workload_gen.specs.Summary.{totals};
ghost use Rattle.workload_gen.specs.Workload.{added, counters, draw, harts, turns};

use dash_base::OutOfMemory;
use std::alloc::Global;

const HARTS: u32 = 64;

const TURNS: u32 = 468;

/// The total of each of the 64 counters: what all harts add to it in all of their turns.
///
/// # Errors
///
/// `OutOfMemory` alone.
pub fn totals(alloc: Global, seed: u32) -> Result<Vec<u32>, OutOfMemory>
    ensures { IfOk result (λ found. found.items ≡ totals seed) }
{
    let mut totals = zeros(alloc)?;
    for hart in 0..HARTS {
        add_turns(&mut totals, seed, hart);
    }
    Ok(totals)
}

/// A counter each, before anything is added.
fn zeros(alloc: Global) -> Result<Vec<u32>, OutOfMemory>
    ensures count { IfOk result (λ zeros. length zeros.items ≡ counters) }
    ensures each { IfOk result (λ zeros. (k : ℕ) → k < counters → slice_index zeros.items k ≡ 0) }
{
    Ok(vec![in alloc; 0u32; 64]?)
}

/// Adds what a hart adds in its turns, where the harts before it have added theirs.
fn add_turns(totals: &mut Vec<u32>, seed: u32, hart: u32)
    requires count { length totals.old.items ≡ counters }
    requires hart { hart < harts }
    requires small { (k : ℕ) → k < counters → slice_index totals.old.items k ≤ hart * 119340 }
    ensures count { length totals.new.items ≡ counters }
    ensures each { (k : ℕ) → k < counters → slice_index totals.new.items k ≡ slice_index totals.old.items k + added seed k hart turns }
    ensures small { (k : ℕ) → k < counters → slice_index totals.new.items k ≤ (hart + 1) * 119340 }
{
    let mut number = first_draw(seed, hart);
    for _turn in 0..TURNS {
        number = next_draw(number);
        totals[(number >> 26) as usize] += (number >> 16) % 256;
    }
}

/// The number that a hart draws before its turns.
fn first_draw(seed: u32, hart: u32) -> u32
    ensures { result ≡ draw seed hart 0 }
{
    seed.wrapping_add(2_654_435_761_u32.wrapping_mul(hart))
}

/// The number that a hart draws after another.
fn next_draw(number: u32) -> u32
    ensures { (seed h i : ℕ) → number ≡ draw seed h i → result ≡ draw seed h (i + 1) }
{
    number.wrapping_mul(1_664_525).wrapping_add(1_013_904_223)
}
