//! The generated workload: from a seed to the summary of its run.
ghost use Rattle.std.specs.Prelude.{◌≡◌, IfOk, map, vec_len};
ghost use Rattle.round_run.specs.Finished.{IsFinished};
ghost use Rattle.workload_gen.specs.Program.{image_of};
ghost use Rattle.workload_gen.specs.Workload.{IsMachine};
ghost use Rattle.dash_run.specs.Generated.{IsGenerated};

use crate::retired::retired_counts;
use crate::run::Run;
use arbiter::Arbiter;
use dash_base::{OutOfMemory, Topology};
use round_run::{Finished, Gate, Machine, RunEnd, run_rounds};
use std::alloc::Global;
use std::sync::Wait;
use std::thread::Threads;
use workload_gen::{image, topology};
use workload_runs::laws::statuses_are_zero;
use workload_runs::summary_of_run;

/// The run of a seed's workload, and the text of its summary.
#[derive(Drop)]
pub struct Generated {
    pub text: Vec<u8>,
    pub run: Run,
}

/// Runs the workload of a seed on its machine, and makes the summary of what its harts retired and of what
/// its log last stored in each counter. Cluster c chooses by arbiter c.
///
/// # Errors
///
/// `OutOfMemory` alone.
pub fn generate_and_run<R: Threads + Wait + Sync, G: Gate>(
    rt: &R,
    alloc: Global,
    seed: u32,
    gate: &G,
    arbiters: Vec<Box<dyn Arbiter + Send>>,
) -> Result<Generated, OutOfMemory>
    requires { vec_len arbiters ≡ 16 }
    ensures { IfOk result (λ g. IsGenerated seed g.text.items
        (record { log = g.run.log.items; units = map (λ u. record { core = u.core; turns = u.turns; steps = u.steps; ahead = u.ahead }) g.run.units.items; rounds = g.run.rounds })) }
{
    let image = image(alloc, seed)?;
    let topology = topology();
    let machine = Machine::new(alloc, &topology, &image, arbiters)?;
    match run_rounds(rt, alloc, machine, gate) {
        Ok(finished) => Ok(summed_up(alloc, seed, &topology, finished)?),
        Err(RunEnd::OutOfMemory) => Err(OutOfMemory),
    }
}

/// The summary of a run that ended.
fn summed_up(
    alloc: Global,
    seed: u32,
    topology: &Topology,
    finished: Finished,
) -> Result<Generated, OutOfMemory>
    requires machine { IsMachine topology.now }
    requires finished { IsFinished (λ u. record { core = u.core; turns = u.turns; steps = u.steps; ahead = u.ahead }) (record { image = image_of seed; top = topology.now }) finished.log.items finished.units.items finished.rounds finished.waits.items finished.cause }
    ensures { IfOk result (λ g. IsGenerated seed g.text.items
        (record { log = g.run.log.items; units = map (λ u. record { core = u.core; turns = u.turns; steps = u.steps; ahead = u.ahead }) g.run.units.items; rounds = g.run.rounds })) }
{
    statuses_are_zero();
    let retired = retired_counts(alloc, topology, finished.units.as_slice())?;
    let text = summary_of_run(alloc, seed, retired.as_slice(), finished.log.as_slice())?;
    let Finished {
        log,
        units,
        rounds,
        ..
    } = finished;
    Ok(Generated {
        text,
        run: Run { log, units, rounds },
    })
}
