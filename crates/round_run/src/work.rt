//! A round of turns: each unit works on a thread of its own.
ghost use Rattle.std.specs.Prelude.{◌≡◌, ℕ, ◌+◌, ◌<◌, ◌≤◌, OnOk, length};
ghost use Rattle.round_run.specs.Units.{seen, HasCounts, Each, IsMesh, HaveReserved};
ghost use Rattle.round_run.specs.Rounds.{Worked};

use crate::gate::Gate;
use cluster_unit::{Turn, Unit};
use dash_base::{ClusterId, OutOfMemory};
use std::thread;
use std::thread::Threads;

/// The turns of each unit in a round.
const TURNS: u32 = 256;

/// Takes memory for the turns of a round, at each unit.
pub fn reserve_all(units: &mut [Unit]) -> Result<(), OutOfMemory>
    ensures counts { Each (λ u. seen u.core u.turns u.steps u.ahead) HasCounts units.old units.new }
    ensures reserved { OnOk result (HaveReserved (λ u. seen u.core u.turns u.steps u.ahead) 256 units.new) }
{
    for unit in units {
        unit.core.reserve(TURNS)?;
    }
    Ok(())
}

/// Lets each unit pass the gate and do the turns of a round, on a thread of its own.
pub fn work_all<R: Threads + Sync, G: Gate>(rt: &R, gate: &G, round: u64, units: &mut [Unit])
    requires some { 0 < length units.old }
    requires few { length units.old ≤ 16 }
    requires reserved { HaveReserved (λ u. seen u.core u.turns u.steps u.ahead) 256 units.old }
    ensures { Each (λ u. seen u.core u.turns u.steps u.ahead) Worked units.old units.new }
{
    let threads = units.len();
    thread::for_each_mut(
        rt,
        units,
        threads,
        &|cluster: usize, unit: &mut Unit|
            requires { (cluster < 16) × (256 ≤ unit.old.core.reserved) }
            ensures { Worked (seen unit.old.core unit.old.turns unit.old.steps unit.old.ahead) (seen unit.new.core unit.new.turns unit.new.steps unit.new.ahead) }
        { work(gate, ClusterId(cluster as u32), round, unit) },
    );
}

/// Lets a unit pass the gate and do the turns of a round.
fn work<G: Gate>(gate: &G, cluster: ClusterId, round: u64, unit: &mut Unit)
    requires { 256 ≤ unit.old.core.reserved }
    ensures { Worked (seen unit.old.core unit.old.turns unit.old.steps unit.old.ahead) (seen unit.new.core unit.new.turns unit.new.steps unit.new.ahead) }
{
    gate.pass(cluster, round);
    let mut last = Turn::Did;
    for _turn in 0..TURNS {
        last = unit.turn_after(last);
    }
}
