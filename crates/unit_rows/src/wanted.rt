//! Whether a hart wants another line with the index of one that it may hold.
ghost use Rattle.std.specs.Prelude.{◌≡◌, ◌<◌, is_some};
ghost use Rattle.dash_model.specs.Wants.{Wants};
ghost use Rattle.remote_cache.specs.Steps.{came_in};
ghost use Rattle.remote_cache.specs.View.{count, slot_at};
ghost use Rattle.unit_rows.specs.EvictFits.{Tells, SlotTells, ComesFor, CanRead, CanWrite, CanStore, is_other, copy_found, owner_found, came_other};
ghost use Rattle.unit_rows.specs.Shown.{config, shown, hart_at, AreSized};

use crate::needs::{needed_copy, needed_store, needed_write};
use crate::parts::Parts;
use crate::site::Site;
use dash_base::LineId;
use remote_cache::{Phase, Slots};
use snoop_bus::Bus;

/// Whether a hart wants another line with the index of this one: it came to a slot of the hart, or the
/// hart needs it and its cluster has it.
pub fn wants_other(site: &Site, parts: &Parts, hart: u32, line: LineId) -> bool
    requires sized { AreSized (config site.now) site.now.cluster.0 (shown parts.now) }
    requires hart { hart < site.now.topology.harts }
    ensures { Tells (config site.now) site.now.cluster.0 (shown parts.now) line.0 (Wants (config site.now) (hart_at (config site.now) site.now.cluster.0 hart)) result }
{
    parts.slots.keeps_one_slot_a_line();
    if comes_other(site, &parts.slots, hart, line) {
        return true;
    }
    if reads_other(site, parts, hart, line) {
        return true;
    }
    if writes_other(site, parts, hart, line) {
        return true;
    }
    stores_other(site, parts, hart, line)
}

/// Whether another line with the index of this one came to a slot of a hart.
pub fn comes_other(site: &Site, slots: &Slots, hart: u32, line: LineId) -> bool
    ensures { SlotTells (config site.now) slots.now hart line.0 result }
{
    for id in 0..slots.count() {
        if came_other(site, slots, hart, line, id) {
            return true;
        }
    }
    false
}

/// Whether another line with the index of this one came to this slot, for a hart.
fn came_other(site: &Site, slots: &Slots, hart: u32, line: LineId, id: u32) -> bool
    requires { id < count slots.now }
    ensures { result ≡ came_other (config site.now) hart line.0 (slot_at slots.now id) }
{
    let Some(slot) = slots.get(id) else {
        return false;
    };
    slot.hart == hart && has_come(slot.phase) && is_other(site, Some(slot.line), line)
}

/// Whether the copy came.
fn has_come(phase: Phase) -> bool
    ensures { result ≡ is_some (came_in phase) }
{
    match phase {
        Phase::Came(_) => true,
        Phase::Asked | Phase::Poisoned | Phase::Refused => false,
    }
}

/// Whether a hart needs a copy of another line with the index of this one, which its cluster has.
pub fn reads_other(site: &Site, parts: &Parts, hart: u32, line: LineId) -> bool
    requires sized { AreSized (config site.now) site.now.cluster.0 (shown parts.now) }
    requires hart { hart < site.now.topology.harts }
    ensures { Tells (config site.now) site.now.cluster.0 (shown parts.now) line.0 (CanRead (config site.now) (hart_at (config site.now) site.now.cluster.0 hart)) result }
{
    let found = needed_copy(site, parts, hart);
    let other = is_other(site, found, line);
    let held = copy_found(&parts.bus, found);
    other && held
}

/// Whether a hart's instruction needs to own another line with the index of this one, of which its
/// cluster has an owner.
pub fn writes_other(site: &Site, parts: &Parts, hart: u32, line: LineId) -> bool
    requires sized { AreSized (config site.now) site.now.cluster.0 (shown parts.now) }
    requires hart { hart < site.now.topology.harts }
    ensures { Tells (config site.now) site.now.cluster.0 (shown parts.now) line.0 (CanWrite (config site.now) (hart_at (config site.now) site.now.cluster.0 hart)) result }
{
    let found = needed_write(site, parts, hart);
    let other = is_other(site, found, line);
    let owned = owner_found(&parts.bus, found);
    other && owned
}

/// Whether a hart's oldest store needs to own another line with the index of this one, of which its
/// cluster has an owner.
pub fn stores_other(site: &Site, parts: &Parts, hart: u32, line: LineId) -> bool
    requires sized { AreSized (config site.now) site.now.cluster.0 (shown parts.now) }
    requires hart { hart < site.now.topology.harts }
    ensures { Tells (config site.now) site.now.cluster.0 (shown parts.now) line.0 (CanStore (config site.now) (hart_at (config site.now) site.now.cluster.0 hart)) result }
{
    let found = needed_store(site, parts, hart);
    let other = is_other(site, found, line);
    let owned = owner_found(&parts.bus, found);
    other && owned
}

/// Whether a line that was found is another one with the index of this one.
fn is_other(site: &Site, found: Option<LineId>, line: LineId) -> bool
    ensures { result ≡ is_other (config site.now) found line.0 }
{
    match found {
        None => false,
        Some(other) => {
            other.0 != line.0 && other.0 % site.topology.l2 == line.0 % site.topology.l2
        }
    }
}

/// Whether a cluster has a copy of a line that was found.
fn copy_found(bus: &Bus, found: Option<LineId>) -> bool
    ensures { result ≡ copy_found bus.now found }
{
    match found {
        None => false,
        Some(line) => bus.peek(line).is_some(),
    }
}

/// Whether a cluster has an owner of a line that was found.
fn owner_found(bus: &Bus, found: Option<LineId>) -> bool
    ensures { result ≡ owner_found bus.now found }
{
    match found {
        None => false,
        Some(line) => bus.owner(line).is_some(),
    }
}
