//! A choice that is done.
ghost use Rattle.std.specs.Prelude.{◌≡◌, false, IfSome, IfNone, option_to_list};
ghost use Rattle.unit_rows.specs.AskFits.{StoresAreOfMemory};
ghost use Rattle.unit_rows.specs.Rows.{DoesChoice, Cannot};
ghost use Rattle.unit_rows.specs.Shown.{config, shown, AreSized};
ghost use Rattle.cluster_unit.specs.Enabling.{is_take};

use crate::answers::{sending, unsent};
use crate::range::is_in_range;
use crate::step::step;
use dash_event::Kind;
use dash_msg::Sent;
use unit_rows::{
    Choice, Parts, Site, again, bus_own, bus_read, commit, evict, grant, install, request,
};

/// Does a choice, other than to take a message: what happened, and the message that it sends. `None`
/// where it is not enabled, as of a hart, slot or lock word that is out of range.
pub fn act(site: &Site, parts: &mut Parts, choice: Choice) -> Option<(Kind, Option<Sent>)>
    requires sized { AreSized (config site.now) site.now.cluster.0 (shown parts.old) }
    requires stores { StoresAreOfMemory (config site.now) (shown parts.old) }
    ensures did { IfSome result (λ done. DoesChoice (config site.now) site.now.cluster.0 choice done.0 (shown parts.old) (shown parts.new) (option_to_list done.1)) }
    ensures idle { IfNone result (is_take choice ≡ false → Cannot (config site.now) site.now.cluster.0 (shown parts.old) choice) }
    ensures unchanged { IfNone result (shown parts.new ≡ shown parts.old) }
    ensures sized { AreSized (config site.now) site.now.cluster.0 (shown parts.new) }
{
    if !is_in_range(site, parts, choice) {
        return None;
    }
    match choice {
        Choice::Step(hart) => step(site, parts, hart),
        Choice::Commit(hart) => unsent(commit(site, parts, hart)),
        Choice::BusRead(hart, line) => unsent(bus_read(site, parts, hart, line)),
        Choice::BusOwn(hart, line) => unsent(bus_own(site, parts, hart, line)),
        Choice::Evict(hart, line) => evict(site, parts, hart, line),
        Choice::Ask(slot) => sending(request(site, parts, slot)),
        Choice::Again(slot) => sending(again(site, parts, slot)),
        Choice::Install(slot) => unsent(install(site, parts, slot)),
        Choice::Grant(word) => sending(grant(site, parts, word)),
        Choice::Take(_, _) => None,
    }
}
