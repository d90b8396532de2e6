//! Which lines harts may get from their cluster.
ghost use Rattle.std.specs.Prelude.{◌≡◌, ◌+◌, ◌*◌, ◌<◌, ◌≤◌, vec_len, vec_capacity};
ghost use Rattle.dash_model.specs.Wants.{FrontNeed, NeedsCopy};
ghost use Rattle.unit_rows.specs.AllNeeds.{AreNeeded};
ghost use Rattle.unit_rows.specs.AskFits.{StoresAreOfMemory};
ghost use Rattle.unit_rows.specs.LineNeeds.{IsNeeded};
ghost use Rattle.unit_rows.specs.Shown.{config, shown, hart_at, AreSized};
ghost use Rattle.cluster_unit.specs.Listing.{HasListed, IsBelow, IsRead, IsWritten};
ghost use Rattle.cluster_unit.specs.Needs.{AreAllNeeded};

use crate::offers::{offer_needed_own, offer_needed_read};
use dash_base::LineId;
use unit_rows::{Choice, Needed, Parts, Site, is_this};

/// Lists the enabled choices of harts to get a line from their cluster, by hart: for its instruction,
/// and then for its oldest store.
pub fn list_bus(site: &Site, parts: &Parts, needs: &[Needed], choices: &mut Vec<Choice>)
    requires sized { AreSized (config site.now) site.now.cluster.0 (shown parts.now) }
    requires stores { StoresAreOfMemory (config site.now) (shown parts.now) }
    requires needed { AreAllNeeded (config site.now) site.now.cluster.0 (shown parts.now) site.now.topology.harts needs.now }
    requires room { vec_len choices.old + 3 * site.now.topology.harts ≤ vec_capacity choices.old }
    requires before { HasListed (config site.now) site.now.cluster.0 (shown parts.now) (IsBelow 3 0) choices.old.items }
    ensures listed { HasListed (config site.now) site.now.cluster.0 (shown parts.now) (IsBelow 3 site.now.topology.harts) choices.new.items }
    ensures short { vec_len choices.new ≤ vec_len choices.old + 3 * site.now.topology.harts }
    ensures room { vec_capacity choices.new ≡ vec_capacity choices.old }
{
    for hart in 0..site.topology.harts {
        list_bus_of(site, parts, hart, needs[hart as usize], choices);
    }
}

/// Lists those of one hart.
fn list_bus_of(site: &Site, parts: &Parts, hart: u32, needed: Needed, choices: &mut Vec<Choice>)
    requires sized { AreSized (config site.now) site.now.cluster.0 (shown parts.now) }
    requires stores { StoresAreOfMemory (config site.now) (shown parts.now) }
    requires hart { hart < site.now.topology.harts }
    requires needed { AreNeeded (config site.now) site.now.cluster.0 (shown parts.now) hart needed }
    requires room { vec_len choices.old + 3 ≤ vec_capacity choices.old }
    requires before { HasListed (config site.now) site.now.cluster.0 (shown parts.now) (IsBelow 3 hart) choices.old.items }
    ensures listed { HasListed (config site.now) site.now.cluster.0 (shown parts.now) (IsBelow 3 (hart + 1)) choices.new.items }
    ensures short { vec_len choices.new ≤ vec_len choices.old + 3 }
    ensures room { vec_capacity choices.new ≡ vec_capacity choices.old }
{
    offer_read(site, parts, hart, needed.copy, choices);
    offer_write(site, parts, hart, needed.write, choices);
    offer_store(site, parts, hart, needed, choices);
}

/// Puts BusRead of the line that a hart's instruction needs a copy of at the end of a list where it is
/// enabled.
fn offer_read(
    site: &Site,
    parts: &Parts,
    hart: u32,
    read: Option<LineId>,
    choices: &mut Vec<Choice>,
)
    requires sized { AreSized (config site.now) site.now.cluster.0 (shown parts.now) }
    requires stores { StoresAreOfMemory (config site.now) (shown parts.now) }
    requires hart { hart < site.now.topology.harts }
    requires room { vec_len choices.old < vec_capacity choices.old }
    requires needed { IsNeeded (λ q p. NeedsCopy (config site.now) (hart_at (config site.now) site.now.cluster.0 hart) q p) (config site.now) site.now.cluster.0 (shown parts.now) read }
    requires before { HasListed (config site.now) site.now.cluster.0 (shown parts.now) (IsBelow 3 hart) choices.old.items }
    ensures listed { HasListed (config site.now) site.now.cluster.0 (shown parts.now) (IsRead hart) choices.new.items }
    ensures short { vec_len choices.new ≤ vec_len choices.old + 1 }
    ensures room { vec_capacity choices.new ≡ vec_capacity choices.old }
{
    let Some(line) = read else {
        return;
    };
    offer_needed_read(site, parts, hart, line, choices);
}

/// Puts BusOwn of the line that a hart's instruction needs to own at the end of a list where it is
/// enabled.
fn offer_write(
    site: &Site,
    parts: &Parts,
    hart: u32,
    written: Option<LineId>,
    choices: &mut Vec<Choice>,
)
    requires sized { AreSized (config site.now) site.now.cluster.0 (shown parts.now) }
    requires stores { StoresAreOfMemory (config site.now) (shown parts.now) }
    requires hart { hart < site.now.topology.harts }
    requires room { vec_len choices.old < vec_capacity choices.old }
    requires needed { IsNeeded (λ q p. FrontNeed (config site.now) (hart_at (config site.now) site.now.cluster.0 hart) q p) (config site.now) site.now.cluster.0 (shown parts.now) written }
    requires before { HasListed (config site.now) site.now.cluster.0 (shown parts.now) (IsRead hart) choices.old.items }
    ensures listed { HasListed (config site.now) site.now.cluster.0 (shown parts.now) (IsWritten hart written) choices.new.items }
    ensures short { vec_len choices.new ≤ vec_len choices.old + 1 }
    ensures room { vec_capacity choices.new ≡ vec_capacity choices.old }
{
    let Some(line) = written else {
        return;
    };
    offer_needed_own(site, parts, hart, line, choices);
}

/// Puts BusOwn of the line that a hart's oldest store needs to own at the end of a list where it is
/// enabled, and is not that of its instruction.
fn offer_store(site: &Site, parts: &Parts, hart: u32, needed: Needed, choices: &mut Vec<Choice>)
    requires sized { AreSized (config site.now) site.now.cluster.0 (shown parts.now) }
    requires stores { StoresAreOfMemory (config site.now) (shown parts.now) }
    requires hart { hart < site.now.topology.harts }
    requires room { vec_len choices.old < vec_capacity choices.old }
    requires needed { AreNeeded (config site.now) site.now.cluster.0 (shown parts.now) hart needed }
    requires before { HasListed (config site.now) site.now.cluster.0 (shown parts.now) (IsWritten hart needed.write) choices.old.items }
    ensures listed { HasListed (config site.now) site.now.cluster.0 (shown parts.now) (IsBelow 3 (hart + 1)) choices.new.items }
    ensures short { vec_len choices.new ≤ vec_len choices.old + 1 }
    ensures room { vec_capacity choices.new ≡ vec_capacity choices.old }
{
    let Some(line) = needed.store else {
        return;
    };
    if is_this(needed.write, line) {
        return;
    }
    offer_needed_own(site, parts, hart, line, choices);
}
