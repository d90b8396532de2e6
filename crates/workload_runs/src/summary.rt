//! The summary of a run.
ghost use Rattle.std.specs.Prelude.{◌≡◌, ◌≤◌, IfOk, length};
ghost use Rattle.dash_base.specs.declared.topology.Topology.{Topology};
ghost use Rattle.dash_model.specs.Machine.{Machine};
ghost use Rattle.workload_runs.specs.Runs.{AreRetired, IsWorkloadRun, added_up, run_summary, whole_summary, workload};

use crate::counters::counters_of;
use crate::laws::summaries_are_of_the_totals;
use dash_base::OutOfMemory;
use dash_event::Event;
use std::alloc::Global;
use workload_gen::summary_of;

/// The summary of a run with this log, of which each hart retired so many instructions: the lines that
/// `workload_gen::summary` has, with the seed, how many harts there are, how many instructions they retired
/// together, and for each counter what the last store of its word wrote, or 0.
///
/// Of a complete run of the workload of this seed it is `workload_gen::summary` of it, byte for byte.
///
/// # Errors
///
/// `OutOfMemory` alone.
pub fn summary_of_run(
    alloc: Global,
    seed: u32,
    retired: &[u32],
    log: &[Event],
) -> Result<Vec<u8>, OutOfMemory>
    requires { length retired.now ≤ 64 }
    ensures text { IfOk result (λ text. text.items ≡ run_summary seed retired.now log.now) }
    ensures whole { (t : Topology) (m : Machine) → IsWorkloadRun seed t log.now m → AreRetired (workload seed t) m retired.now
        → IfOk result (λ text. text.items ≡ whole_summary seed) }
{
    summaries_are_of_the_totals();
    let counters = counters_of(alloc, log)?;
    let harts = retired.len() as u32;
    summary_of(alloc, seed, harts, added_up(retired), &counters)
}

/// These counts added up, which stands still at the greatest number of 32 bits.
fn added_up(counts: &[u32]) -> u32
    ensures { result ≡ added_up counts.now }
{
    let mut total: u32 = 0;
    for count in counts {
        total = total.saturating_add(*count);
    }
    total
}
