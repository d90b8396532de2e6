//! Rounds until a run ends.
ghost use Rattle.std.specs.Prelude.{◌≡◌, ℕ, ◌<◌, IfOk, OnOk, IsTrue, length, vec_len, slice_index_or, ◌+◌, min, ⊤};
ghost use Rattle.dash_model.specs.Config.{Config};
ghost use Rattle.cluster_unit.specs.Core.{HasRun};
ghost use Rattle.cluster_unit.specs.Wiring.{AreOf};
ghost use Rattle.round_run.specs.Finished.{IsFinished};
ghost use Rattle.round_run.specs.Units.{seen, Each, IsMesh, AreEmptied, NoneGrants};
ghost use Rattle.round_run.specs.Rounds.{StaysSame, AreCounted};
ghost use Rattle.round_run.specs.Ending.{AreOver};

use crate::ending::{are_over, cause, waits};
use crate::finished::{Finished, RunEnd};
use crate::gate::Gate;
use crate::machine::Machine;
use crate::serial::serial_turn;
use crate::settle::settle;
use crate::stamps::check_stamps;
use crate::work::{reserve_all, work_all};
use cluster_unit::Unit;
use dash_base::{OutOfMemory, Topology};
use dash_model::laws::{messages_are_in_range, runs_keep_locks};
use std::alloc::Global;
use std::sync::Wait;
use std::thread::Threads;
use trace_merge::laws::merged_logs_are_runs;
use trace_merge::merge;

/// Runs the machine, round by round, until it has come to its end: after a serial turn in which no hart got
/// on, where nothing is on its way and each hart has ended, has spent its budget, or waits for a lock word.
pub fn run_rounds<R: Threads + Wait + Sync, G: Gate>(
    rt: &R,
    alloc: Global,
    machine: Machine,
    gate: &G,
) -> Result<Finished, RunEnd>
    requires { ⊤ }
    ensures { (w : Config) → AreOf (λ u. u.core) w machine.units.items → IfOk result (λ f. IsFinished (λ u. seen u.core u.turns u.steps u.ahead) w f.log.items f.units.items f.rounds f.waits.items f.cause) }
{
    let Machine {
        topology,
        units,
        rounds,
        ..
    } = machine;
    let mut units = units;
    let mut rounds = rounds;
    for _round in rt.forever() {
        let got_on = round(rt, gate, &topology, &mut units, rounds)?;
        rounds = rounds.saturating_add(1);
        if !got_on && are_over(&topology, &units) {
            let machine = Machine {
                topology,
                units,
                rounds,
            };
            return machine.finish(alloc);
        }
    }
    unreachable!()
}

/// A round: the units work on threads of their own, then the machine settles, and then harts do steps alone.
/// The answer is whether a hart got on in these.
fn round<R: Threads + Sync, G: Gate>(
    rt: &R,
    gate: &G,
    topology: &Topology,
    units: &mut Vec<Unit>,
    rounds: u64,
) -> Result<bool, OutOfMemory>
    requires mesh { IsMesh (λ u. seen u.core u.turns u.steps u.ahead) topology.now units.old.items }
    requires counted { AreCounted (λ u. seen u.core u.turns u.steps u.ahead) topology.now rounds units.old.items }
    ensures same { Each (λ u. seen u.core u.turns u.steps u.ahead) StaysSame units.old.items units.new.items }
    ensures counted { OnOk result (AreCounted (λ u. seen u.core u.turns u.steps u.ahead) topology.now (min (rounds + 1) 18446744073709551615) units.new.items) }
    ensures emptied { OnOk result (AreEmptied (λ u. seen u.core u.turns u.steps u.ahead) units.new.items) }
    ensures granted { OnOk result (NoneGrants (λ u. seen u.core u.turns u.steps u.ahead) units.new.items) }
{
    round_of(rt, gate, topology, units.as_mut_slice(), rounds)
}

/// The same of units side by side.
fn round_of<R: Threads + Sync, G: Gate>(
    rt: &R,
    gate: &G,
    topology: &Topology,
    units: &mut [Unit],
    rounds: u64,
) -> Result<bool, OutOfMemory>
    requires mesh { IsMesh (λ u. seen u.core u.turns u.steps u.ahead) topology.now units.old }
    requires counted { AreCounted (λ u. seen u.core u.turns u.steps u.ahead) topology.now rounds units.old }
    ensures same { Each (λ u. seen u.core u.turns u.steps u.ahead) StaysSame units.old units.new }
    ensures counted { OnOk result (AreCounted (λ u. seen u.core u.turns u.steps u.ahead) topology.now (min (rounds + 1) 18446744073709551615) units.new) }
    ensures emptied { OnOk result (AreEmptied (λ u. seen u.core u.turns u.steps u.ahead) units.new) }
    ensures granted { OnOk result (NoneGrants (λ u. seen u.core u.turns u.steps u.ahead) units.new) }
{
    reserve_all(units)?;
    work_all(rt, gate, rounds, units);
    check_stamps(units)?;
    settle(topology, units)?;
    let first = (rounds % u64::from(topology.hart_count())) as u32;
    serial_turn(topology, units, first)
}

impl Machine {
    /// What the run leaves.
    fn finish(self, alloc: Global) -> Result<Finished, RunEnd>
        requires some { 0 < self.rounds }
        requires emptied { AreEmptied (λ u. seen u.core u.turns u.steps u.ahead) self.units.items }
        requires granted { NoneGrants (λ u. seen u.core u.turns u.steps u.ahead) self.units.items }
        requires over { AreOver (λ u. seen u.core u.turns u.steps u.ahead) self.topology self.units.items }
        ensures { (w : Config) → AreOf (λ u. u.core) w self.units.items → IfOk result (λ f. IsFinished (λ u. seen u.core u.turns u.steps u.ahead) w f.log.items f.units.items f.rounds f.waits.items f.cause) }
    {
        check_stamps(&self.units)?;
        all_have_run(&self.units);
        merged_logs_are_runs();
        messages_are_in_range();
        runs_keep_locks();
        let cause = cause(&self.topology, &self.units);
        let waits = waits(alloc, &self.topology, &self.units)?;
        let log = merge(alloc, self.units.as_slice())?;
        let Machine { units, rounds, .. } = self;
        Ok(Finished {
            log,
            units,
            rounds,
            waits,
            cause,
        })
    }
}

/// The log of each unit is a run of its cluster by itself.
fn all_have_run(units: &[Unit])
    ensures { (c : ℕ) (d : _) → c < length units.now → HasRun (slice_index_or units.now c d).core }
{
    for unit in units {
        unit.core.has_run();
    }
}
