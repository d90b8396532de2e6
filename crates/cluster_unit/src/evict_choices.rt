//! Which lines harts may give up.
ghost use Rattle.std.specs.Prelude.{◌≡◌, ◌+◌, ◌*◌, ◌<◌, ◌≤◌, length, vec_len, vec_capacity};
ghost use Rattle.unit_rows.specs.AllNeeds.{AreNeeded};
ghost use Rattle.unit_rows.specs.AskFits.{StoresAreOfMemory};
ghost use Rattle.unit_rows.specs.Shown.{config, shown, AreSized};
ghost use Rattle.cluster_unit.specs.Listing.{HasListed, IsBelow};
ghost use Rattle.cluster_unit.specs.Needs.{AreAllNeeded};
ghost use Rattle.cluster_unit.specs.Victims.{IsRising, HasVictims};

use crate::offers::offer;
use crate::victims::victims_of;
use dash_base::LineId;
use unit_rows::{Choice, Needed, Parts, Site};

/// Lists the enabled choices of harts to give up a line, by hart and then by line.
pub fn list_evictions(site: &Site, parts: &Parts, needs: &[Needed], choices: &mut Vec<Choice>)
    requires sized { AreSized (config site.now) site.now.cluster.0 (shown parts.now) }
    requires stores { StoresAreOfMemory (config site.now) (shown parts.now) }
    requires needed { AreAllNeeded (config site.now) site.now.cluster.0 (shown parts.now) site.now.topology.harts needs.now }
    requires room { vec_len choices.old + 19 * site.now.topology.harts ≤ vec_capacity choices.old }
    requires before { HasListed (config site.now) site.now.cluster.0 (shown parts.now) (IsBelow 4 0) choices.old.items }
    ensures listed { HasListed (config site.now) site.now.cluster.0 (shown parts.now) (IsBelow 4 site.now.topology.harts) choices.new.items }
    ensures short { vec_len choices.new ≤ vec_len choices.old + 19 * site.now.topology.harts }
    ensures room { vec_capacity choices.new ≡ vec_capacity choices.old }
{
    for hart in 0..site.topology.harts {
        list_evictions_of(site, parts, hart, needs[hart as usize], choices);
    }
}

/// Lists those of one hart, by line.
fn list_evictions_of(
    site: &Site,
    parts: &Parts,
    hart: u32,
    needed: Needed,
    choices: &mut Vec<Choice>,
)
    requires sized { AreSized (config site.now) site.now.cluster.0 (shown parts.now) }
    requires stores { StoresAreOfMemory (config site.now) (shown parts.now) }
    requires hart { hart < site.now.topology.harts }
    requires needed { AreNeeded (config site.now) site.now.cluster.0 (shown parts.now) hart needed }
    requires room { vec_len choices.old + 19 ≤ vec_capacity choices.old }
    requires before { HasListed (config site.now) site.now.cluster.0 (shown parts.now) (IsBelow 4 hart) choices.old.items }
    ensures listed { HasListed (config site.now) site.now.cluster.0 (shown parts.now) (IsBelow 4 (hart + 1)) choices.new.items }
    ensures short { vec_len choices.new ≤ vec_len choices.old + 19 }
    ensures room { vec_capacity choices.new ≡ vec_capacity choices.old }
{
    let lines = victims_of(site, parts, hart, needed);
    offer_evictions(site, parts, hart, lines.as_slice(), choices);
}

/// Lists those of one hart that are among these lines, which rise: each line that it may give up is.
fn offer_evictions(site: &Site, parts: &Parts, hart: u32, lines: &[u32], choices: &mut Vec<Choice>)
    requires sized { AreSized (config site.now) site.now.cluster.0 (shown parts.now) }
    requires stores { StoresAreOfMemory (config site.now) (shown parts.now) }
    requires rising { IsRising lines.now }
    requires whole { HasVictims (config site.now) site.now.cluster.0 (shown parts.now) hart lines.now }
    requires room { vec_len choices.old + length lines.now ≤ vec_capacity choices.old }
    requires before { HasListed (config site.now) site.now.cluster.0 (shown parts.now) (IsBelow 4 hart) choices.old.items }
    ensures listed { HasListed (config site.now) site.now.cluster.0 (shown parts.now) (IsBelow 4 (hart + 1)) choices.new.items }
    ensures short { vec_len choices.new ≤ vec_len choices.old + length lines.now }
    ensures room { vec_capacity choices.new ≡ vec_capacity choices.old }
{
    for line in lines {
        offer(site, parts, Choice::Evict(hart, LineId(*line)), choices);
    }
}
