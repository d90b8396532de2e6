//! A choice that is put into a list where it is enabled.
ghost use Rattle.std.specs.Prelude.{◌≡◌, ◌+◌, ◌<◌, ◌≤◌, false, vec_len, vec_capacity};
ghost use Rattle.dash_model.specs.Part.{Part};
ghost use Rattle.dash_model.specs.Wants.{NeedsCopy, NeedsOwn};
ghost use Rattle.unit_rows.specs.AskFits.{StoresAreOfMemory};
ghost use Rattle.unit_rows.specs.declared.choice.Choice.TheVariants.{BusRead, BusOwn};
ghost use Rattle.unit_rows.specs.Shown.{config, shown, hart_at, Shows, AreSized};
ghost use Rattle.cluster_unit.specs.Enabling.{is_take};
ghost use Rattle.cluster_unit.specs.Listing.{Offers};

use crate::enabled::is_enabled;
use dash_base::LineId;
use unit_rows::{Choice, Parts, Site, fits_needed_own, fits_needed_read};

/// Puts a choice at the end of a list where it is enabled. It takes no memory.
#[inline(always)]
pub fn offer(site: &Site, parts: &Parts, choice: Choice, choices: &mut Vec<Choice>)
    requires sized { AreSized (config site.now) site.now.cluster.0 (shown parts.now) }
    requires stores { StoresAreOfMemory (config site.now) (shown parts.now) }
    requires own { is_take choice ≡ false }
    requires room { vec_len choices.old < vec_capacity choices.old }
    ensures offers { Offers (config site.now) site.now.cluster.0 (shown parts.now) choice choices.old.items choices.new.items }
    ensures short { vec_len choices.new ≤ vec_len choices.old + 1 }
    ensures room { vec_capacity choices.new ≡ vec_capacity choices.old }
{
    if !is_enabled(site, parts, choice) {
        return;
    }
    choices.push_reserved(choice);
}

/// The same of BusRead, of a line that was found to be one that the hart needs a copy of.
pub fn offer_needed_read(
    site: &Site,
    parts: &Parts,
    hart: u32,
    line: LineId,
    choices: &mut Vec<Choice>,
)
    requires sized { AreSized (config site.now) site.now.cluster.0 (shown parts.now) }
    requires hart { hart < site.now.topology.harts }
    requires needed { (p : Part) → Shows (config site.now) site.now.cluster.0 (shown parts.now) p → NeedsCopy (config site.now) (hart_at (config site.now) site.now.cluster.0 hart) line.0 p }
    requires room { vec_len choices.old < vec_capacity choices.old }
    ensures offers { Offers (config site.now) site.now.cluster.0 (shown parts.now) (BusRead hart line) choices.old.items choices.new.items }
    ensures short { vec_len choices.new ≤ vec_len choices.old + 1 }
    ensures room { vec_capacity choices.new ≡ vec_capacity choices.old }
{
    parts.bus.keeps_one_map();
    if !fits_needed_read(site, parts, hart, line) {
        return;
    }
    choices.push_reserved(Choice::BusRead(hart, line));
}

/// The same of BusOwn, of a line that was found to be one that the hart needs to own.
pub fn offer_needed_own(
    site: &Site,
    parts: &Parts,
    hart: u32,
    line: LineId,
    choices: &mut Vec<Choice>,
)
    requires sized { AreSized (config site.now) site.now.cluster.0 (shown parts.now) }
    requires hart { hart < site.now.topology.harts }
    requires needed { (p : Part) → Shows (config site.now) site.now.cluster.0 (shown parts.now) p → NeedsOwn (config site.now) (hart_at (config site.now) site.now.cluster.0 hart) line.0 p }
    requires room { vec_len choices.old < vec_capacity choices.old }
    ensures offers { Offers (config site.now) site.now.cluster.0 (shown parts.now) (BusOwn hart line) choices.old.items choices.new.items }
    ensures short { vec_len choices.new ≤ vec_len choices.old + 1 }
    ensures room { vec_capacity choices.new ≡ vec_capacity choices.old }
{
    if !fits_needed_own(site, parts, hart, line) {
        return;
    }
    choices.push_reserved(Choice::BusOwn(hart, line));
}
