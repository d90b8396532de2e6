//! Which lock words may be granted.
ghost use Rattle.std.specs.Prelude.{◌≡◌, ◌+◌, ◌<◌, ◌≤◌, vec_len, vec_capacity};
ghost use Rattle.unit_rows.specs.AskFits.{StoresAreOfMemory};
ghost use Rattle.unit_rows.specs.declared.choice.Choice.TheVariants.{Grant};
ghost use Rattle.unit_rows.specs.Shown.{config, shown, AreSized};
ghost use Rattle.cluster_unit.specs.Listing.{Offers, HasListed, IsBelow};

use crate::offers::offer;
use unit_rows::{Choice, Parts, Site};

/// Lists the enabled choices to grant a lock word, by the words' numbers. Where nobody waits it looks
/// at no word.
pub fn list_grants(site: &Site, parts: &Parts, choices: &mut Vec<Choice>)
    requires sized { AreSized (config site.now) site.now.cluster.0 (shown parts.now) }
    requires stores { StoresAreOfMemory (config site.now) (shown parts.now) }
    requires room { vec_len choices.old + site.now.topology.locks ≤ vec_capacity choices.old }
    requires before { HasListed (config site.now) site.now.cluster.0 (shown parts.now) (IsBelow 8 0) choices.old.items }
    ensures listed { HasListed (config site.now) site.now.cluster.0 (shown parts.now) (IsBelow 8 site.now.topology.locks) choices.new.items }
    ensures short { vec_len choices.new ≤ vec_len choices.old + site.now.topology.locks }
    ensures room { vec_capacity choices.new ≡ vec_capacity choices.old }
{
    if parts.locks.waiting() == 0 {
        return;
    }
    for number in 0..site.topology.locks {
        offer_grant(site, parts, number, choices);
    }
}

/// Puts the choice to grant a lock word at the end of a list where it is enabled.
fn offer_grant(site: &Site, parts: &Parts, number: u32, choices: &mut Vec<Choice>)
    requires sized { AreSized (config site.now) site.now.cluster.0 (shown parts.now) }
    requires stores { StoresAreOfMemory (config site.now) (shown parts.now) }
    requires room { vec_len choices.old < vec_capacity choices.old }
    ensures offers { Offers (config site.now) site.now.cluster.0 (shown parts.now) (Grant number) choices.old.items choices.new.items }
    ensures short { vec_len choices.new ≤ vec_len choices.old + 1 }
    ensures room { vec_capacity choices.new ≡ vec_capacity choices.old }
{
    if !parts.locks.is_own(number) {
        return;
    }
    offer(site, parts, Choice::Grant(number), choices);
}
