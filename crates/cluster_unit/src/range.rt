//! The harts and slots that a cluster has.
ghost use Rattle.std.specs.Prelude.{◌≡◌, false, IsTrue};
ghost use Rattle.unit_rows.specs.Rows.{Cannot};
ghost use Rattle.unit_rows.specs.Shown.{config, shown, AreSized};
ghost use Rattle.cluster_unit.specs.Enabling.{is_take, IsInRange};

use unit_rows::{Choice, Parts, Site};

/// Whether the cluster has the hart or the slot that a choice names, if it names one.
pub fn is_in_range(site: &Site, parts: &Parts, choice: Choice) -> bool
    requires sized { AreSized (config site.now) site.now.cluster.0 (shown parts.now) }
    ensures inside { IsTrue result → IsInRange (config site.now) (shown parts.now) choice }
    ensures outside { result ≡ false → is_take choice ≡ false → Cannot (config site.now) site.now.cluster.0 (shown parts.now) choice }
{
    match choice {
        Choice::Step(hart) => hart < site.topology.harts,
        Choice::Commit(hart) => hart < site.topology.harts,
        Choice::BusRead(hart, _) => hart < site.topology.harts,
        Choice::BusOwn(hart, _) => hart < site.topology.harts,
        Choice::Evict(hart, _) => hart < site.topology.harts,
        Choice::Ask(slot) => slot < parts.slots.count(),
        Choice::Again(slot) => slot < parts.slots.count(),
        Choice::Install(slot) => slot < parts.slots.count(),
        Choice::Grant(_) => true,
        Choice::Take(_, _) => true,
    }
}
