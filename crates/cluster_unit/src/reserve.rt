//! Memory for turns to come.
ghost use Rattle.std.specs.Prelude.{◌≡◌, ℕ, ◌<◌, ◌≤◌, ⊤, OnOk, length, slice_index_or};
ghost use Rattle.mesh_lanes.specs.View.{OutletView};
ghost use Rattle.cluster_unit.specs.Reserving.{Reserved, HaveMore};

use crate::unit_core::Core;
use dash_base::OutOfMemory;
use mesh_lanes::Outlet;

/// The most events that a log may have: more lie beyond any memory.
const MOST_EVENTS: u64 = 1 << 56;

/// The most messages that an event sends by one lane.
const MOST_SENT: u32 = 17;

impl Core {
    /// Takes memory, so that at least so many turns take none. The answer may be `OutOfMemory` also
    /// where a part of it was taken.
    pub fn reserve(&mut self, turns: u32) -> Result<(), OutOfMemory>
        requires { ⊤ }
        ensures ok { OnOk result (turns ≤ self.new.reserved) }
        ensures others { Reserved self.old self.new }
    {
        if turns <= self.reserved {
            return Ok(());
        }
        if self.log.len() as u64 + u64::from(turns) >= MOST_EVENTS {
            return Err(OutOfMemory);
        }
        let messages = turns.checked_mul(MOST_SENT).ok_or(OutOfMemory)?;
        self.log.reserve(turns as usize)?;
        reserve_ends(&mut self.outlets, messages)?;
        self.reserved = turns;
        Ok(())
    }
}

/// Takes memory at each of these ends for so many messages.
fn reserve_ends(outlets: &mut [Outlet], messages: u32) -> Result<(), OutOfMemory>
    ensures ok { OnOk result ((j : ℕ) (x : OutletView) → j < length outlets.new → messages ≤ (slice_index_or outlets.new j x).spare) }
    ensures others { HaveMore outlets.old outlets.new }
{
    for outlet in outlets {
        outlet.reserve(messages)?;
    }
    Ok(())
}
