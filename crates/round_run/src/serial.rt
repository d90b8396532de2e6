//! The serial turn: harts do steps alone, so that some hart gets on.
ghost use Rattle.std.specs.Prelude.{◌≡◌, ℕ, ◌*◌, ◌+◌, ◌/◌, ◌<◌, ◌≤◌, IfOk, OnOk, length, slice_index_or};
ghost use Rattle.cluster_unit.specs.declared.turn.Turn.TheVariants.{Idle};
ghost use Rattle.round_run.specs.Units.{seen, OnlyMet, HasCounts, Each, IsMesh, AreEmptied, NoneGrants};
ghost use Rattle.round_run.specs.Serial.{DidSteps, EachDid, tries_of, tries_between};

use crate::progress::{Marks, ends_of};
use crate::settle::settle;
use cluster_unit::{Turn, Unit};
use dash_base::{OutOfMemory, Topology};

/// The most steps that a hart does in a serial turn.
const TRIES: u32 = 3;

/// Lets the harts do steps alone, one hart after another from `first` on and once round, until one has
/// retired an instruction or committed a store. The answer is whether one has. The machine is settled after
/// each step that was done.
pub fn serial_turn(topology: &Topology, units: &mut [Unit], first: u32) -> Result<bool, OutOfMemory>
    requires first { first < topology.now.clusters * topology.now.harts }
    requires mesh { IsMesh (λ u. seen u.core u.turns u.steps u.ahead) topology.now units.old }
    requires emptied { AreEmptied (λ u. seen u.core u.turns u.steps u.ahead) units.old }
    requires granted { NoneGrants (λ u. seen u.core u.turns u.steps u.ahead) units.old }
    ensures steps { EachDid (λ u. seen u.core u.turns u.steps u.ahead) (λ c. 3 * topology.now.harts) units.old units.new }
    ensures emptied { OnOk result (AreEmptied (λ u. seen u.core u.turns u.steps u.ahead) units.new) }
    ensures granted { OnOk result (NoneGrants (λ u. seen u.core u.turns u.steps u.ahead) units.new) }
{
    let marks = ends_of(units);
    let harts = topology.hart_count();
    if serve_harts(topology, units, &marks, first, harts)? {
        return Ok(true);
    }
    serve_harts(topology, units, &marks, 0, first)
}

/// Lets the harts from one number to another do steps alone, until some hart has got on.
fn serve_harts(
    topology: &Topology,
    units: &mut [Unit],
    marks: &Marks,
    from: u32,
    to: u32,
) -> Result<bool, OutOfMemory>
    requires to { to ≤ topology.now.clusters * topology.now.harts }
    requires from { from ≤ to }
    requires mesh { IsMesh (λ u. seen u.core u.turns u.steps u.ahead) topology.now units.old }
    requires emptied { AreEmptied (λ u. seen u.core u.turns u.steps u.ahead) units.old }
    requires granted { NoneGrants (λ u. seen u.core u.turns u.steps u.ahead) units.old }
    ensures steps { EachDid (λ u. seen u.core u.turns u.steps u.ahead) (tries_between topology.now.harts from to) units.old units.new }
    ensures emptied { OnOk result (AreEmptied (λ u. seen u.core u.turns u.steps u.ahead) units.new) }
    ensures granted { OnOk result (NoneGrants (λ u. seen u.core u.turns u.steps u.ahead) units.new) }
{
    for hart in from..to {
        if serve_hart(topology, units, marks, hart)? {
            return Ok(true);
        }
    }
    Ok(false)
}

/// Lets a hart do steps alone, until it has none to do or some hart has got on.
fn serve_hart(
    topology: &Topology,
    units: &mut [Unit],
    marks: &Marks,
    hart: u32,
) -> Result<bool, OutOfMemory>
    requires hart { hart < topology.now.clusters * topology.now.harts }
    requires mesh { IsMesh (λ u. seen u.core u.turns u.steps u.ahead) topology.now units.old }
    requires emptied { AreEmptied (λ u. seen u.core u.turns u.steps u.ahead) units.old }
    requires granted { NoneGrants (λ u. seen u.core u.turns u.steps u.ahead) units.old }
    ensures steps { EachDid (λ u. seen u.core u.turns u.steps u.ahead) (tries_of topology.now.harts 3 hart) units.old units.new }
    ensures emptied { OnOk result (AreEmptied (λ u. seen u.core u.turns u.steps u.ahead) units.new) }
    ensures granted { OnOk result (NoneGrants (λ u. seen u.core u.turns u.steps u.ahead) units.new) }
{
    let cluster = (hart / topology.harts) as usize;
    let number = hart % topology.harts;
    for _try in 0..TRIES {
        if step_alone(&mut units[cluster], number)? == Turn::Idle {
            return Ok(false);
        }
        settle(topology, units)?;
        if marks.are_passed(units) {
            return Ok(true);
        }
    }
    Ok(false)
}

/// Lets a hart of a unit do one step alone, for which the unit takes the memory. Where it has none to do the
/// unit stays as it is.
fn step_alone(unit: &mut Unit, hart: u32) -> Result<Turn, OutOfMemory>
    requires { hart < unit.old.core.config.top.harts }
    ensures steps { DidSteps 1 (seen unit.old.core unit.old.turns unit.old.steps unit.old.ahead) (seen unit.new.core unit.new.turns unit.new.steps unit.new.ahead) }
    ensures idle { IfOk result (λ turn. turn ≡ Idle → OnlyMet (seen unit.old.core unit.old.turns unit.old.steps unit.old.ahead) (seen unit.new.core unit.new.turns unit.new.steps unit.new.ahead)) }
{
    unit.core.reserve(1)?;
    Ok(unit.serial_step(hart))
}
