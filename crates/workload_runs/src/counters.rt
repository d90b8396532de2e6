//! The counters of a log.
ghost use Rattle.std.specs.Prelude.{◌≡◌, ◌≢◌, ◌<◌, ℕ, IfOk, Some, None, length, slice_index, unwrap_or};
ghost use Rattle.std.specs.List.{last_or};
ghost use Rattle.workload_gen.specs.Workload.{counter_word};
ghost use Rattle.workload_runs.specs.Counters.{counters_in, stored_in};

use dash_base::{OutOfMemory, WordAddr};
use dash_event::{Event, Kind};
use std::alloc::Global;

/// For each of the 64 counters what the last store of its word in a log wrote, or 0 where the log has none.
///
/// # Errors
///
/// There was no memory for the list.
pub fn counters_of(alloc: Global, log: &[Event]) -> Result<Vec<u32>, OutOfMemory>
    ensures { IfOk result (λ counters. counters.items ≡ counters_in log.now) }
{
    let mut counters = vec![in alloc; 0u32; 64]?;
    for event in log {
        note_store(&mut counters, &event.kind);
    }
    Ok(counters)
}

/// Notes what a store of a counter's word wrote.
fn note_store(counters: &mut Vec<u32>, kind: &Kind)
    requires { length counters.old.items ≡ 64 }
    ensures count { length counters.new.items ≡ 64 }
    ensures each { (k : ℕ) → k < 64 → slice_index counters.new.items k ≡ unwrap_or (last_or (Some (slice_index counters.old.items k)) (stored_in (counter_word k) kind.now)) 0 }
{
    if let Kind::Store { access } = kind {
        if let Some(number) = counter_at(access.word) {
            counters[number as usize] = access.written.unwrap_or(0);
        }
    }
}

/// The number of the counter whose word is at an address.
fn counter_at(word: WordAddr) -> Option<u32>
    ensures some { (k : ℕ) → result ≡ Some k → (k < 64) × (word.0 ≡ counter_word k) }
    ensures none { result ≡ None → (k : ℕ) → k < 64 → word.0 ≢ counter_word k }
{
    let offset = word.0.checked_sub(32768)?;
    if offset % 16 == 0 && offset / 16 < 64 {
        Some(offset / 16)
    } else {
        None
    }
}
