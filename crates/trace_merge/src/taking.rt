//! Events taken one after another from logs, in the order of their merge.
ghost use Rattle.std.specs.Prelude.{◌≡◌, ◌+◌, ◌<◌, ◌≤◌, [], ◌∷◌, ◌++◌, OnOk, OnErr, IsTrue, IsFalse, length, map, take, MatchOption, slice_index_or, vec_len};
ghost use Rattle.std.specs.List.{AllByRecursion};
ghost use Rattle.dash_model.specs.LocalRun.{IsMergeOf};
ghost use Rattle.trace_merge.specs.MergedLogs.{AreLogs, log_of};
ghost use Rattle.trace_merge.specs.Settled.{last_stamp, IsBeforeNext, IsSettled, StartsMerge, IsSettledPart};
ghost use Rattle.trace_merge.specs.Taking.{AreTaken, head_of, AllTaken, IsFirst, earlier_of, taken_with};

use dash_base::OutOfMemory;
use dash_event::{Event, Logged};
use std::slice;

/// Takes all events that are settled. Where there is no memory, some may have been taken.
pub fn take_settled<L: Logged>(
    done: &mut Vec<Event>,
    taken: &mut Vec<usize>,
    logs: &[L],
) -> Result<(), OutOfMemory>
    requires logs { AreLogs (map L.log logs.now) }
    requires count { length taken.old.items ≡ length logs.now }
    requires taken { AreTaken done.old.items taken.old.items }
    requires starts { StartsMerge (map L.log logs.now) done.old.items }
    requires settled { AllByRecursion (IsSettled (map L.log logs.now)) done.old.items }
    ensures kept { take (length done.old.items) done.new.items ≡ done.old.items }
    ensures count { length taken.new.items ≡ length taken.old.items }
    ensures taken { OnOk result (AreTaken done.new.items taken.new.items) }
    ensures settled { OnOk result (IsSettledPart (map L.log logs.now) done.new.items) }
{
    while let Some(event) = first_left(logs, taken) {
        if !is_settled(logs, &event) {
            return Ok(());
        }
        take_one(done, taken, &event)?;
    }
    Ok(())
}

/// Takes all events.
pub fn take_all<L: Logged>(
    done: &mut Vec<Event>,
    taken: &mut Vec<usize>,
    logs: &[L],
) -> Result<(), OutOfMemory>
    requires logs { AreLogs (map L.log logs.now) }
    requires count { length taken.old.items ≡ length logs.now }
    requires taken { AreTaken done.old.items taken.old.items }
    requires starts { StartsMerge (map L.log logs.now) done.old.items }
    ensures { OnOk result (IsMergeOf (length logs.now) (log_of (map L.log logs.now)) done.new.items) }
{
    while let Some(event) = first_left(logs, taken) {
        take_one(done, taken, &event)?;
    }
    Ok(())
}

/// Takes an event, the next of its cluster.
fn take_one(done: &mut Vec<Event>, taken: &mut Vec<usize>, event: &Event) -> Result<(), OutOfMemory>
    requires within { event.now.cluster.0 < length taken.old.items }
    requires room { slice_index_or taken.old.items event.now.cluster.0 0 ≤ length done.old.items }
    ensures done { OnOk result (done.new.items ≡ done.old.items ++ event.now ∷ []) }
    ensures taken { OnOk result (taken.new.items ≡ taken_with taken.old.items event.now) }
    ensures kept { OnErr result (done.new.items ≡ done.old.items) }
    ensures count { OnErr result (taken.new.items ≡ taken.old.items) }
{
    let cluster = event.cluster.0 as usize;
    done.extend_from_slice(slice::from_ref(event))?;
    taken[cluster] += 1;
    Ok(())
}

/// The first event of all that were not taken. `None` where all were.
fn first_left<L: Logged>(logs: &[L], taken: &[usize]) -> Option<Event>
    requires logs { AreLogs (map L.log logs.now) }
    requires count { length taken.now ≡ length logs.now }
    ensures { MatchOption result (AllTaken (map L.log logs.now) taken.now (length logs.now)) (IsFirst (map L.log logs.now) taken.now (length logs.now)) }
{
    let mut first: Option<Event> = None;
    for cluster in 0..logs.len() {
        first = earlier(first, head(logs, taken, cluster));
    }
    first
}

/// The first event of a log that was not taken. `None` where all were.
fn head<L: Logged>(logs: &[L], taken: &[usize], cluster: usize) -> Option<Event>
    requires within { cluster < length logs.now }
    requires count { length taken.now ≡ length logs.now }
    ensures { result ≡ head_of (map L.log logs.now) taken.now cluster }
{
    logs[cluster].events().get(taken[cluster]).copied()
}

/// The earlier of two events, where both are there.
fn earlier(first: Option<Event>, second: Option<Event>) -> Option<Event>
    ensures { result ≡ earlier_of first second }
{
    match (first, second) {
        (None, second) => second,
        (Some(first), None) => Some(first),
        (Some(first), Some(second)) => {
            if second.stamp < first.stamp {
                Some(second)
            } else {
                Some(first)
            }
        }
    }
}

/// Whether no cluster can still write an event before this one.
fn is_settled<L: Logged>(logs: &[L], event: &Event) -> bool
    ensures yes { IsTrue result → IsSettled (map L.log logs.now) event.now }
    ensures no { IsFalse result → IsSettled (map L.log logs.now) event.now → ⊥ }
{
    for cluster in 0..logs.len() {
        if !is_before_next(last_stamp(logs[cluster].events()), cluster, event) {
            return false;
        }
    }
    true
}

/// The stamp of the last event of a log, 0 where it has none.
fn last_stamp(log: &[Event]) -> u64
    ensures { result ≡ last_stamp log.now }
{
    match log.last() {
        Some(event) => event.stamp,
        None => 0,
    }
}

/// Whether an event comes before all that this cluster can still write, whose last event has this stamp.
fn is_before_next(last: u64, cluster: usize, event: &Event) -> bool
    ensures yes { IsTrue result → IsBeforeNext last cluster event.now }
    ensures no { IsFalse result → IsBeforeNext last cluster event.now → ⊥ }
{
    event.stamp <= last || (event.stamp - 1 == last && (event.cluster.0 as usize) < cluster)
}
