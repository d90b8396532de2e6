//! The summary of the workload.
ghost use Rattle.std.specs.Prelude.{◌≡◌, ◌++◌, IfOk, OnOk, length, slice_index, string_bytes};
ghost use Rattle.workload_gen.specs.Summary.{summary_text, totals, retired_in_all, seed_line, counter_line, counter_lines};
ghost use Rattle.workload_gen.specs.Workload.{harts};

use crate::additions::totals;
use dash_base::OutOfMemory;
use std::alloc::Global;
use std::fmt::Write;

/// The summary that a complete run of the workload comes to: that 64 harts retired 480,448 instructions, and
/// the total of each counter.
///
/// # Errors
///
/// `OutOfMemory` alone.
pub fn summary(alloc: Global, seed: u32) -> Result<Vec<u8>, OutOfMemory>
    ensures { IfOk result (λ text. text.items ≡ summary_text seed harts retired_in_all (totals seed)) }
{
    let totals = totals(alloc, seed)?;
    summary_of(alloc, seed, 64, 480_448, &totals)
}

/// The summary of these numbers: a line of the seed, how many harts there are and how many instructions they
/// retired, and a line for each counter, from 0 on.
///
/// # Errors
///
/// `OutOfMemory` alone.
#[tactic(auto, unfolding(crate::specs::Summary::summary_text))]
pub fn summary_of(
    alloc: Global,
    seed: u32,
    harts: u32,
    retired: u32,
    counters: &[u32],
) -> Result<Vec<u8>, OutOfMemory>
    ensures { IfOk result (λ text. text.items ≡ summary_text seed harts retired counters.now) }
{
    let mut text = String::new(alloc);
    push_seed_line(&mut text, seed, harts, retired)?;
    push_counter_lines(&mut text, counters)?;
    Ok(text.into_bytes())
}

#[tactic(auto, unfolding(crate::specs::Summary::seed_line))]
fn push_seed_line(text: &mut String, seed: u32, harts: u32, retired: u32) -> Result<(), OutOfMemory>
    ensures { OnOk result (string_bytes text.new ≡ string_bytes text.old ++ seed_line seed harts retired) }
{
    write!(text, "seed {seed} harts {harts} retired {retired}\n")?;
    Ok(())
}

fn push_counter_lines(text: &mut String, counters: &[u32]) -> Result<(), OutOfMemory>
    ensures { OnOk result (string_bytes text.new ≡ string_bytes text.old ++ counter_lines (slice_index counters.now) (length counters.now)) }
{
    for (number, value) in counters.iter().enumerate() {
        push_counter_line(text, number, *value)?;
    }
    Ok(())
}

#[tactic(auto, unfolding(crate::specs::Summary::counter_line))]
fn push_counter_line(text: &mut String, number: usize, value: u32) -> Result<(), OutOfMemory>
    ensures { OnOk result (string_bytes text.new ≡ string_bytes text.old ++ counter_line number value) }
{
    write!(text, "counter {number} {value}\n")?;
    Ok(())
}
