//! Whether a choice is enabled.
ghost use Rattle.std.specs.Prelude.{◌≡◌, false, IsTrue};
ghost use Rattle.unit_rows.specs.AskFits.{StoresAreOfMemory};
ghost use Rattle.unit_rows.specs.Rows.{Cannot};
ghost use Rattle.unit_rows.specs.Shown.{config, shown, AreSized};
ghost use Rattle.cluster_unit.specs.Enabling.{Can, is_take};

use crate::range::is_in_range;
use crate::step::fits_step;
use unit_rows::{
    Choice, Parts, Site, fits_again, fits_bus_own, fits_bus_read, fits_commit, fits_evict,
    fits_grant, fits_install, fits_request,
};

/// Whether a choice is enabled, other than to take a message. One whose hart, slot or lock word is out
/// of range is not.
#[inline(always)]
pub fn is_enabled(site: &Site, parts: &Parts, choice: Choice) -> bool
    requires sized { AreSized (config site.now) site.now.cluster.0 (shown parts.now) }
    requires stores { StoresAreOfMemory (config site.now) (shown parts.now) }
    ensures yes { IsTrue result → Can (config site.now) site.now.cluster.0 (shown parts.now) choice }
    ensures no { result ≡ false → is_take choice ≡ false → Cannot (config site.now) site.now.cluster.0 (shown parts.now) choice }
{
    if !is_in_range(site, parts, choice) {
        return false;
    }
    parts.bus.keeps_one_map();
    parts.slots.keeps_one_slot_a_line();
    match choice {
        Choice::Step(hart) => fits_step(site, parts, hart),
        Choice::Commit(hart) => fits_commit(site, parts, hart).is_some(),
        Choice::BusRead(hart, line) => fits_bus_read(site, parts, hart, line),
        Choice::BusOwn(hart, line) => fits_bus_own(site, parts, hart, line),
        Choice::Evict(hart, line) => fits_evict(site, parts, hart, line),
        Choice::Ask(slot) => fits_request(site, parts, slot).is_some(),
        Choice::Again(slot) => fits_again(site, parts, slot).is_some(),
        Choice::Install(slot) => fits_install(site, parts, slot).is_some(),
        Choice::Grant(word) => fits_grant(site, parts, word),
        Choice::Take(_, _) => false,
    }
}
