//! The lines that the harts of a cluster need, found once for a list of choices.
ghost use Rattle.std.specs.Prelude.{length};
ghost use Rattle.unit_rows.specs.Shown.{config, shown, AreSized};
ghost use Rattle.cluster_unit.specs.Needs.{AreAllNeeded};

use arrayvec::ArrayVec;
use unit_rows::{Needed, Parts, Site, find_needed};

/// How many harts a cluster has at most.
const MOST_HARTS: usize = 4;

/// The lines that each hart needs, by the harts' numbers.
pub fn find_needs(site: &Site, parts: &Parts) -> ArrayVec<Needed, MOST_HARTS>
    requires { AreSized (config site.now) site.now.cluster.0 (shown parts.now) }
    ensures { AreAllNeeded (config site.now) site.now.cluster.0 (shown parts.now) site.now.topology.harts result.items }
{
    let mut needs = ArrayVec::new();
    for hart in 0..site.topology.harts {
        needs.push(find_needed(site, parts, hart));
    }
    needs
}
