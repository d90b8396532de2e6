//! Settling: what is on its way arrives, and what came is installed.
ghost use Rattle.std.specs.Prelude.{◌≡◌, ◌<◌, IfOk, OnOk, length};
ghost use Rattle.round_run.specs.Units.{seen, HasCounts, Each, IsMesh, AreEmptied, NoneGrants};
ghost use Rattle.round_run.specs.Weight.{IsEased, SettledBy, AllSettledBy, is_idle};

use crate::meets::meet_all;
use cluster_unit::{Turn, Unit};
use dash_base::{OutOfMemory, Topology};

/// The most steps that a unit does before the lanes meet again.
const STEPS: u32 = 16;

/// Settles the machine: all units meet, and each does what is left to settle, until none has anything to do
/// and so no lane has a message. It ends, since each step lowers the weight of what is on its way and left.
pub fn settle(topology: &Topology, units: &mut [Unit]) -> Result<(), OutOfMemory>
    requires mesh { IsMesh (λ u. seen u.core u.turns u.steps u.ahead) topology.now units.old }
    ensures counts { Each (λ u. seen u.core u.turns u.steps u.ahead) HasCounts units.old units.new }
    ensures emptied { OnOk result (AreEmptied (λ u. seen u.core u.turns u.steps u.ahead) units.new) }
    ensures granted { OnOk result (NoneGrants (λ u. seen u.core u.turns u.steps u.ahead) units.new) }
{
    meet_all(topology, units);
    while !settle_each(units)? {
        meet_all(topology, units);
    }
    Ok(())
}

/// Lets each unit do steps by which its cluster settles. The answer is whether none had one to do.
fn settle_each(units: &mut [Unit]) -> Result<bool, OutOfMemory>
    ensures eased { Each (λ u. seen u.core u.turns u.steps u.ahead) IsEased units.old units.new }
    ensures settled { IfOk result (λ idle. AllSettledBy (λ u. seen u.core u.turns u.steps u.ahead) idle units.old units.new) }
{
    let mut idle = true;
    for unit in units {
        idle &= settle_unit(unit)?;
    }
    Ok(idle)
}

/// Lets a unit do steps by which its cluster settles. The answer is whether it had none to do.
fn settle_unit(unit: &mut Unit) -> Result<bool, OutOfMemory>
    ensures eased { IsEased (seen unit.old.core unit.old.turns unit.old.steps unit.old.ahead) (seen unit.new.core unit.new.turns unit.new.steps unit.new.ahead) }
    ensures settled { IfOk result (λ idle. SettledBy idle (seen unit.old.core unit.old.turns unit.old.steps unit.old.ahead) (seen unit.new.core unit.new.turns unit.new.steps unit.new.ahead)) }
{
    for step in 0..STEPS {
        if step_once(unit)? == Turn::Idle {
            return Ok(step == 0);
        }
    }
    Ok(false)
}

/// Lets a unit do one step by which its cluster settles, for which the unit takes the memory.
fn step_once(unit: &mut Unit) -> Result<Turn, OutOfMemory>
    ensures eased { IsEased (seen unit.old.core unit.old.turns unit.old.steps unit.old.ahead) (seen unit.new.core unit.new.turns unit.new.steps unit.new.ahead) }
    ensures settled { IfOk result (λ turn. SettledBy (is_idle turn) (seen unit.old.core unit.old.turns unit.old.steps unit.old.ahead) (seen unit.new.core unit.new.turns unit.new.steps unit.new.ahead)) }
{
    unit.core.reserve(1)?;
    unit.core.has_run();
    Ok(unit.settle_step())
}
