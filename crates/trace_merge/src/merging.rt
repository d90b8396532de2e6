//! The log of the whole machine, from the logs of its clusters.
ghost use Rattle.std.specs.Prelude.{IfOk, length, map};
ghost use Rattle.dash_model.specs.LocalRun.{IsMergeOf};
ghost use Rattle.trace_merge.specs.MergedLogs.{AreLogs, log_of};

use dash_base::OutOfMemory;
use dash_event::{Event, Logged};
use std::alloc::Global;

/// All events of these logs in one log, by their stamps, and those of one stamp by their clusters. Log
/// number c is that of cluster c, and its stamps rise.
///
/// # Errors
///
/// There was no memory for the log.
pub fn merge<L: Logged>(alloc: Global, logs: &[L]) -> Result<Vec<Event>, OutOfMemory>
    requires { AreLogs (map L.log logs.now) }
    ensures { IfOk result (λ merged. IsMergeOf (length logs.now) (log_of (map L.log logs.now)) merged.items) }
{
    let mut events: Vec<Event> = Vec::new(alloc);
    for log in logs {
        events.extend_from_slice(log.events())?;
    }
    events.sort_by_key(|event| event.stamp)?;
    Ok(events)
}
