//! Whether a machine has come to its end, and why.
ghost use Rattle.std.specs.Prelude.{◌≡◌, ℕ, ◌*◌, ◌+◌, ◌<◌, IfOk, IsTrue, IsFalse, length, slice_index_or};
ghost use Rattle.round_run.specs.Units.{seen, IsMesh};
ghost use Rattle.round_run.specs.Ending.{Has, IsOver, AreOver, SomeHart, NoHart, IsCause, TellsAsked};

use crate::finished::Cause;
use crate::rest::{Rest, is_still, rests};
use cluster_unit::{Core, Unit};
use dash_base::{OutOfMemory, Topology};
use std::alloc::Global;

/// Whether each unit is over: its slots, acknowledgements and buffers are empty, and each of its harts has
/// ended, has spent its budget, or waits for the answer to its lock instruction.
pub fn are_over(topology: &Topology, units: &[Unit]) -> bool
    requires mesh { IsMesh (λ u. seen u.core u.turns u.steps u.ahead) topology.now units.now }
    ensures { IsTrue result → AreOver (λ u. seen u.core u.turns u.steps u.ahead) topology.now units.now }
{
    for unit in units {
        if !is_over(topology, &unit.core) {
            return false;
        }
    }
    true
}

/// Whether a unit is.
fn is_over(topology: &Topology, core: &Core) -> bool
    requires top { core.now.config.top ≡ topology.now }
    ensures { IsTrue result → IsOver topology.now core.now }
{
    if !core.quiet() {
        return false;
    }
    for hart in 0..topology.harts {
        if !is_still(topology, core, hart) {
            return false;
        }
    }
    true
}

/// Why a machine whose units are over came to its end.
pub fn cause(topology: &Topology, units: &[Unit]) -> Cause
    requires mesh { IsMesh (λ u. seen u.core u.turns u.steps u.ahead) topology.now units.now }
    ensures { IsCause (λ u. seen u.core u.turns u.steps u.ahead) topology.now units.now result }
{
    if some_rests(Rest::Trap, topology, units) {
        return Cause::Trapped;
    }
    if some_rests(Rest::Spent, topology, units) {
        return Cause::Budget;
    }
    if some_rests(Rest::Asked, topology, units) {
        return Cause::Deadlock;
    }
    Cause::Exited
}

/// Whether some hart of the machine rests so.
fn some_rests(rest: Rest, topology: &Topology, units: &[Unit]) -> bool
    requires mesh { IsMesh (λ u. seen u.core u.turns u.steps u.ahead) topology.now units.now }
    ensures some { IsTrue result → SomeHart (λ u. seen u.core u.turns u.steps u.ahead) topology.now (Has rest) units.now }
    ensures none { IsFalse result → NoHart (λ u. seen u.core u.turns u.steps u.ahead) topology.now (Has rest) units.now }
{
    for unit in units {
        for hart in 0..topology.harts {
            if rests(rest, topology, &unit.core, hart) {
                return true;
            }
        }
    }
    false
}

/// For each hart, by its number in the machine, whether it waits for the answer to its lock instruction.
pub fn waits(alloc: Global, topology: &Topology, units: &[Unit]) -> Result<Vec<bool>, OutOfMemory>
    requires mesh { IsMesh (λ u. seen u.core u.turns u.steps u.ahead) topology.now units.now }
    ensures { IfOk result (λ waits. TellsAsked (λ u. seen u.core u.turns u.steps u.ahead) topology.now units.now waits.items) }
{
    let mut waits = Vec::new(alloc);
    for unit in units {
        for hart in 0..topology.harts {
            waits.push(unit.core.asked(hart))?;
        }
    }
    Ok(waits)
}
