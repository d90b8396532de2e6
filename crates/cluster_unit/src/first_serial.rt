//! The first choice that serves a hart.
ghost use Rattle.std.specs.Prelude.{◌≡◌, ◌<◌, false};
ghost use Rattle.unit_rows.specs.AskFits.{StoresAreOfMemory};
ghost use Rattle.unit_rows.specs.Shown.{config, shown, AreSized};
ghost use Rattle.cluster_unit.specs.Enabling.{is_take};
ghost use Rattle.cluster_unit.specs.Serial.{ServesStore, ServesFront, Serves};
ghost use Rattle.cluster_unit.specs.SerialSearch.{Just, FoundAt, FirstFor};

use crate::cause::Cause;
use crate::enabled::is_enabled;
use crate::room::find_room;
use unit_rows::{Choice, Parts, Site, needed_copy, needed_store, needed_write};

/// The first choice that serves a hart: its oldest store, or its instruction where no store waits.
pub fn first_serial(site: &Site, parts: &Parts, hart: u32) -> Option<Choice>
    requires sized { AreSized (config site.now) site.now.cluster.0 (shown parts.now) }
    requires stores { StoresAreOfMemory (config site.now) (shown parts.now) }
    requires hart { hart < site.now.topology.harts }
    ensures { FirstFor (config site.now) site.now.cluster.0 (shown parts.now) (λ y p. Serves (config site.now) site.now.cluster.0 hart y p) result }
{
    if parts.locals[hart as usize].buffer.len() == 0 {
        return first_for_instruction(site, parts, hart);
    }
    first_for_store(site, parts, hart)
}

/// The first choice that serves the oldest store of a hart.
fn first_for_store(site: &Site, parts: &Parts, hart: u32) -> Option<Choice>
    requires sized { AreSized (config site.now) site.now.cluster.0 (shown parts.now) }
    requires stores { StoresAreOfMemory (config site.now) (shown parts.now) }
    requires hart { hart < site.now.topology.harts }
    ensures { FirstFor (config site.now) site.now.cluster.0 (shown parts.now) (λ y p. ServesStore (config site.now) site.now.cluster.0 hart y p) result }
{
    if let Some(choice) = enabled(site, parts, Choice::Commit(hart)) {
        return Some(choice);
    }
    if let Some(choice) = own_for_store(site, parts, hart) {
        return Some(choice);
    }
    if let Some(choice) = find_room(site, parts, hart, Cause::Store) {
        return Some(choice);
    }
    enabled(site, parts, Choice::Ask(hart + site.topology.harts))
}

/// The first choice that serves the instruction of a hart.
fn first_for_instruction(site: &Site, parts: &Parts, hart: u32) -> Option<Choice>
    requires sized { AreSized (config site.now) site.now.cluster.0 (shown parts.now) }
    requires stores { StoresAreOfMemory (config site.now) (shown parts.now) }
    requires hart { hart < site.now.topology.harts }
    ensures { FirstFor (config site.now) site.now.cluster.0 (shown parts.now) (λ y p. ServesFront (config site.now) site.now.cluster.0 hart y p) result }
{
    if let Some(choice) = enabled(site, parts, Choice::Step(hart)) {
        return Some(choice);
    }
    if let Some(choice) = read_for_instruction(site, parts, hart) {
        return Some(choice);
    }
    if let Some(choice) = own_for_instruction(site, parts, hart) {
        return Some(choice);
    }
    if let Some(choice) = find_room(site, parts, hart, Cause::Instruction) {
        return Some(choice);
    }
    enabled(site, parts, Choice::Ask(hart))
}

/// The choice to own the line of a hart's oldest store.
fn own_for_store(site: &Site, parts: &Parts, hart: u32) -> Option<Choice>
    requires sized { AreSized (config site.now) site.now.cluster.0 (shown parts.now) }
    requires stores { StoresAreOfMemory (config site.now) (shown parts.now) }
    requires hart { hart < site.now.topology.harts }
    ensures { FoundAt (config site.now) site.now.cluster.0 (shown parts.now) (λ y p. ServesStore (config site.now) site.now.cluster.0 hart y p) 2 result }
{
    let Some(line) = needed_store(site, parts, hart) else {
        return None;
    };
    enabled(site, parts, Choice::BusOwn(hart, line))
}

/// The choice to hold the line that a hart's instruction reads.
fn read_for_instruction(site: &Site, parts: &Parts, hart: u32) -> Option<Choice>
    requires sized { AreSized (config site.now) site.now.cluster.0 (shown parts.now) }
    requires stores { StoresAreOfMemory (config site.now) (shown parts.now) }
    requires hart { hart < site.now.topology.harts }
    ensures { FoundAt (config site.now) site.now.cluster.0 (shown parts.now) (λ y p. ServesFront (config site.now) site.now.cluster.0 hart y p) 1 result }
{
    let Some(line) = needed_copy(site, parts, hart) else {
        return None;
    };
    enabled(site, parts, Choice::BusRead(hart, line))
}

/// The choice to own the line that a hart's instruction writes to.
fn own_for_instruction(site: &Site, parts: &Parts, hart: u32) -> Option<Choice>
    requires sized { AreSized (config site.now) site.now.cluster.0 (shown parts.now) }
    requires stores { StoresAreOfMemory (config site.now) (shown parts.now) }
    requires hart { hart < site.now.topology.harts }
    ensures { FoundAt (config site.now) site.now.cluster.0 (shown parts.now) (λ y p. ServesFront (config site.now) site.now.cluster.0 hart y p) 2 result }
{
    let Some(line) = needed_write(site, parts, hart) else {
        return None;
    };
    enabled(site, parts, Choice::BusOwn(hart, line))
}

/// This choice, where it is enabled.
fn enabled(site: &Site, parts: &Parts, choice: Choice) -> Option<Choice>
    requires sized { AreSized (config site.now) site.now.cluster.0 (shown parts.now) }
    requires stores { StoresAreOfMemory (config site.now) (shown parts.now) }
    requires own { is_take choice ≡ false }
    ensures { Just (config site.now) site.now.cluster.0 (shown parts.now) choice result }
{
    if !is_enabled(site, parts, choice) {
        return None;
    }
    Some(choice)
}
