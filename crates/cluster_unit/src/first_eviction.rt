//! The first line in the way of one that came.
ghost use Rattle.std.specs.Prelude.{◌≡◌, ◌<◌, false, IsTrue};
ghost use Rattle.unit_rows.specs.declared.choice.Choice.TheVariants.{Evict};
ghost use Rattle.unit_rows.specs.AskFits.{StoresAreOfMemory};
ghost use Rattle.unit_rows.specs.Rows.{Can};
ghost use Rattle.unit_rows.specs.Shown.{config, shown, AreSized};
ghost use Rattle.cluster_unit.specs.Searching.{CannotSettle, IsWay, FirstLine, FirstHart};
ghost use Rattle.cluster_unit.specs.Victims.{IsRising, HasVictims};

use crate::enabled::is_enabled;
use crate::victims::victims;
use dash_base::LineId;
use unit_rows::{Choice, Parts, Site, in_the_way};

/// The first choice of a hart, by its number and then by the line's, to give up a line that is in the
/// way of one that came for it.
pub fn first_eviction(site: &Site, parts: &Parts) -> Option<Choice>
    requires sized { AreSized (config site.now) site.now.cluster.0 (shown parts.now) }
    requires stores { StoresAreOfMemory (config site.now) (shown parts.now) }
    ensures { FirstHart (config site.now) site.now.cluster.0 (shown parts.now) result }
{
    for hart in 0..site.topology.harts {
        if let Some(choice) = first_of_hart(site, parts, hart) {
            return Some(choice);
        }
    }
    None
}

/// The first one of a hart.
fn first_of_hart(site: &Site, parts: &Parts, hart: u32) -> Option<Choice>
    requires sized { AreSized (config site.now) site.now.cluster.0 (shown parts.now) }
    requires stores { StoresAreOfMemory (config site.now) (shown parts.now) }
    requires hart { hart < site.now.topology.harts }
    ensures { FirstLine (config site.now) site.now.cluster.0 (shown parts.now) hart result }
{
    let lines = victims(site, parts, hart);
    first_line(site, parts, hart, lines.as_slice())
}

/// The first one of a hart among these lines, which rise: each line that it may give up is there.
fn first_line(site: &Site, parts: &Parts, hart: u32, lines: &[u32]) -> Option<Choice>
    requires sized { AreSized (config site.now) site.now.cluster.0 (shown parts.now) }
    requires stores { StoresAreOfMemory (config site.now) (shown parts.now) }
    requires hart { hart < site.now.topology.harts }
    requires rising { IsRising lines.now }
    requires whole { HasVictims (config site.now) site.now.cluster.0 (shown parts.now) hart lines.now }
    ensures { FirstLine (config site.now) site.now.cluster.0 (shown parts.now) hart result }
{
    for line in lines {
        let line = LineId(*line);
        if makes_way(site, parts, hart, line) {
            return Some(Choice::Evict(hart, line));
        }
    }
    None
}

/// Whether a hart may give up a line, and it is in the way of one that came for the hart.
fn makes_way(site: &Site, parts: &Parts, hart: u32, line: LineId) -> bool
    requires sized { AreSized (config site.now) site.now.cluster.0 (shown parts.now) }
    requires stores { StoresAreOfMemory (config site.now) (shown parts.now) }
    requires hart { hart < site.now.topology.harts }
    ensures can { IsTrue result → Can (config site.now) site.now.cluster.0 (shown parts.now) (Evict hart line) }
    ensures way { IsTrue result → IsWay (config site.now) site.now.cluster.0 (shown parts.now) hart line.0 }
    ensures cannot { result ≡ false → CannotSettle (config site.now) site.now.cluster.0 (shown parts.now) (Evict hart line) }
{
    if !in_the_way(site, parts, hart, line) {
        return false;
    }
    is_enabled(site, parts, Choice::Evict(hart, line))
}
