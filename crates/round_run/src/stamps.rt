//! Stamps that stay far below the greatest one.
ghost use Rattle.std.specs.Prelude.{◌≡◌, ℕ, ◌^◌, ◌<◌, OnOk, IsTrue, length, slice_index_or};
ghost use Rattle.round_run.specs.Units.{seen};
ghost use Rattle.round_run.specs.Stamps.{EndsBelow, AreBelow};

use cluster_unit::Unit;
use dash_base::OutOfMemory;
use dash_event::Event;

/// The least stamp that no log in memory comes to.
const TOO_LATE: u64 = 1 << 62;

/// Answers `OutOfMemory` where some unit's last stamp is so late that its log lies beyond any memory.
pub fn check_stamps(units: &[Unit]) -> Result<(), OutOfMemory>
    ensures { OnOk result (AreBelow (λ u. seen u.core u.turns u.steps u.ahead) units.now) }
{
    for unit in units {
        if !ends_below(unit.core.log()) {
            return Err(OutOfMemory);
        }
    }
    Ok(())
}

/// Whether the last stamp of a log is below that.
fn ends_below(log: &[Event]) -> bool
    ensures { IsTrue result → EndsBelow log.now }
{
    log.last().is_none_or(|event| event.stamp < TOO_LATE)
}
