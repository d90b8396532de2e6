//! The first choice by which a cluster settles.
ghost use Rattle.std.specs.Prelude.{◌≡◌, ◌<◌};
ghost use Rattle.unit_rows.specs.declared.choice.Choice.TheVariants.{Grant, Install};
ghost use Rattle.unit_rows.specs.AskFits.{StoresAreOfMemory};
ghost use Rattle.unit_rows.specs.Shown.{config, shown, AreSized};
ghost use Rattle.cluster_unit.specs.Searching.{FirstOf, FirstOwn, FirstAfter};

use crate::enabled::is_enabled;
use crate::first_eviction::first_eviction;
use unit_rows::{Choice, Parts, Site};

/// The choice to take a message that is shown; else the first of the other choices.
pub fn first_after(site: &Site, parts: &Parts, take: Option<Choice>) -> Option<Choice>
    requires sized { AreSized (config site.now) site.now.cluster.0 (shown parts.now) }
    requires stores { StoresAreOfMemory (config site.now) (shown parts.now) }
    ensures { FirstAfter (config site.now) site.now.cluster.0 (shown parts.now) take result }
{
    match take {
        Some(choice) => Some(choice),
        None => first_own(site, parts),
    }
}

/// The first choice, other than to take a message: to grant a lock word, to install a line that came,
/// or to give up one that is in its way. `None` where none of them is enabled.
fn first_own(site: &Site, parts: &Parts) -> Option<Choice>
    requires sized { AreSized (config site.now) site.now.cluster.0 (shown parts.now) }
    requires stores { StoresAreOfMemory (config site.now) (shown parts.now) }
    ensures { FirstOwn (config site.now) site.now.cluster.0 (shown parts.now) result }
{
    if let Some(choice) = first_grant(site, parts) {
        return Some(choice);
    }
    if let Some(choice) = first_install(site, parts) {
        return Some(choice);
    }
    first_eviction(site, parts)
}

/// The first lock word that may be granted. Where nobody waits it looks at no word.
fn first_grant(site: &Site, parts: &Parts) -> Option<Choice>
    requires sized { AreSized (config site.now) site.now.cluster.0 (shown parts.now) }
    requires stores { StoresAreOfMemory (config site.now) (shown parts.now) }
    ensures { FirstOf (config site.now) site.now.cluster.0 (shown parts.now) (λ i. Grant i) result }
{
    if parts.locks.waiting() == 0 {
        return None;
    }
    for number in 0..site.topology.locks {
        if is_enabled(site, parts, Choice::Grant(number)) {
            return Some(Choice::Grant(number));
        }
    }
    None
}

/// The first slot whose line may be installed.
fn first_install(site: &Site, parts: &Parts) -> Option<Choice>
    requires sized { AreSized (config site.now) site.now.cluster.0 (shown parts.now) }
    requires stores { StoresAreOfMemory (config site.now) (shown parts.now) }
    ensures { FirstOf (config site.now) site.now.cluster.0 (shown parts.now) (λ n. Install n) result }
{
    for slot in 0..parts.slots.count() {
        if is_enabled(site, parts, Choice::Install(slot)) {
            return Some(Choice::Install(slot));
        }
    }
    None
}
