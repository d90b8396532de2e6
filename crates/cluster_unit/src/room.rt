//! A line in the way of what a hart needs.
ghost use Rattle.std.specs.Prelude.{◌≡◌, ◌<◌, false, IsTrue};
ghost use Rattle.dash_model.specs.Part.{Part};
ghost use Rattle.unit_rows.specs.declared.choice.Choice.TheVariants.{Evict};
ghost use Rattle.unit_rows.specs.AskFits.{StoresAreOfMemory};
ghost use Rattle.unit_rows.specs.Rows.{Can};
ghost use Rattle.unit_rows.specs.Shown.{config, shown, Shows, AreSized};
ghost use Rattle.cluster_unit.specs.Serial.{FrontRoom};
ghost use Rattle.cluster_unit.specs.SerialSearch.{RoomFor, MakesRoom, CannotMake, FindsRoom};
ghost use Rattle.cluster_unit.specs.Victims.{HasVictims};

use crate::cause::Cause;
use crate::enabled::is_enabled;
use crate::victims::victims;
use dash_base::LineId;
use unit_rows::{Choice, Parts, Site, reads_other, stores_other, writes_other};

/// The choice of a hart to give up a line that is in the way of what it needs for this cause.
pub fn find_room(site: &Site, parts: &Parts, hart: u32, cause: Cause) -> Option<Choice>
    requires sized { AreSized (config site.now) site.now.cluster.0 (shown parts.now) }
    requires stores { StoresAreOfMemory (config site.now) (shown parts.now) }
    requires hart { hart < site.now.topology.harts }
    ensures { FindsRoom cause (config site.now) site.now.cluster.0 (shown parts.now) hart result }
{
    let lines = victims(site, parts, hart);
    room_among(site, parts, hart, cause, lines.as_slice())
}

/// The choice to give up one of these lines: each line that the hart may give up is there.
fn room_among(site: &Site, parts: &Parts, hart: u32, cause: Cause, lines: &[u32]) -> Option<Choice>
    requires sized { AreSized (config site.now) site.now.cluster.0 (shown parts.now) }
    requires stores { StoresAreOfMemory (config site.now) (shown parts.now) }
    requires hart { hart < site.now.topology.harts }
    requires whole { HasVictims (config site.now) site.now.cluster.0 (shown parts.now) hart lines.now }
    ensures { FindsRoom cause (config site.now) site.now.cluster.0 (shown parts.now) hart result }
{
    for line in lines {
        let line = LineId(*line);
        if makes_room(site, parts, hart, cause, line) {
            return Some(Choice::Evict(hart, line));
        }
    }
    None
}

/// Whether a hart may give up a line, and it is in the way of what the hart needs.
fn makes_room(site: &Site, parts: &Parts, hart: u32, cause: Cause, line: LineId) -> bool
    requires sized { AreSized (config site.now) site.now.cluster.0 (shown parts.now) }
    requires stores { StoresAreOfMemory (config site.now) (shown parts.now) }
    requires hart { hart < site.now.topology.harts }
    ensures can { IsTrue result → Can (config site.now) site.now.cluster.0 (shown parts.now) (Evict hart line) }
    ensures room { IsTrue result → MakesRoom cause (config site.now) site.now.cluster.0 (shown parts.now) hart line.0 }
    ensures cannot { result ≡ false → CannotMake cause (config site.now) site.now.cluster.0 (shown parts.now) hart line }
{
    if !is_for(site, parts, hart, cause, line) {
        return false;
    }
    is_enabled(site, parts, Choice::Evict(hart, line))
}

/// Whether a line is in the way of what a hart needs for this cause.
fn is_for(site: &Site, parts: &Parts, hart: u32, cause: Cause, line: LineId) -> bool
    requires sized { AreSized (config site.now) site.now.cluster.0 (shown parts.now) }
    requires hart { hart < site.now.topology.harts }
    ensures yes { IsTrue result → MakesRoom cause (config site.now) site.now.cluster.0 (shown parts.now) hart line.0 }
    ensures no { result ≡ false → (p : Part) → Shows (config site.now) site.now.cluster.0 (shown parts.now) p → RoomFor cause (config site.now) site.now.cluster.0 hart line.0 p → ⊥ }
{
    match cause {
        Cause::Store => stores_other(site, parts, hart, line),
        Cause::Instruction => is_for_instruction(site, parts, hart, line),
    }
}

/// Whether a line is in the way of what a hart needs for its instruction.
fn is_for_instruction(site: &Site, parts: &Parts, hart: u32, line: LineId) -> bool
    requires sized { AreSized (config site.now) site.now.cluster.0 (shown parts.now) }
    requires hart { hart < site.now.topology.harts }
    ensures yes { IsTrue result → (p : Part) → Shows (config site.now) site.now.cluster.0 (shown parts.now) p → FrontRoom (config site.now) site.now.cluster.0 hart line.0 p }
    ensures no { result ≡ false → (p : Part) → Shows (config site.now) site.now.cluster.0 (shown parts.now) p → FrontRoom (config site.now) site.now.cluster.0 hart line.0 p → ⊥ }
{
    if reads_other(site, parts, hart, line) {
        return true;
    }
    writes_other(site, parts, hart, line)
}
