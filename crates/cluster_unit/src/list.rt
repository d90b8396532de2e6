//! The choices of a cluster, in their order.
ghost use Rattle.std.specs.Prelude.{◌≡◌, ◌≤◌, [], length, vec_len, vec_capacity};
ghost use Rattle.unit_rows.specs.AskFits.{StoresAreOfMemory};
ghost use Rattle.unit_rows.specs.Shown.{config, shown, AreSized};
ghost use Rattle.cluster_unit.specs.Lists.{ListsOwn};

use crate::bus_choices::list_bus;
use crate::by_number::{ByNumber, list_by_number};
use crate::evict_choices::list_evictions;
use crate::grants::list_grants;
use crate::needs::find_needs;
use unit_rows::{Choice, Parts, Site};

/// How many choices a cluster can have at most, those to take a message among them.
pub const MOST_CHOICES: usize = 2_048;

/// Lists the choices that are enabled, other than those to take a message, in their order. It takes no
/// memory. A slot for prefetches asks for nothing here, and an empty one neither asks again nor has a
/// line to install.
pub fn list_own(site: &Site, parts: &Parts, choices: &mut Vec<Choice>)
    requires sized { AreSized (config site.now) site.now.cluster.0 (shown parts.now) }
    requires stores { StoresAreOfMemory (config site.now) (shown parts.now) }
    requires room { 2048 ≤ vec_capacity choices.old }
    ensures lists { ListsOwn (config site.now) site.now.cluster.0 (shown parts.now) choices.new.items }
    ensures room { vec_capacity choices.new ≡ vec_capacity choices.old }
    ensures short { vec_len choices.new ≤ 2000 }
{
    let harts = site.topology.harts;
    let used = parts.slots.used();
    let needs = find_needs(site, parts);
    choices.clear();
    list_by_number(site, parts, ByNumber::Step, harts, choices);
    list_by_number(site, parts, ByNumber::Commit, harts, choices);
    list_bus(site, parts, needs.as_slice(), choices);
    list_evictions(site, parts, needs.as_slice(), choices);
    list_by_number(site, parts, ByNumber::Ask, 2 * harts, choices);
    list_by_number(site, parts, ByNumber::Again, used, choices);
    list_by_number(site, parts, ByNumber::Install, used, choices);
    list_grants(site, parts, choices);
}
