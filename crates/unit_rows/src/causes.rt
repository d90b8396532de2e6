//! What a slot with no request has cause to ask for.
ghost use Rattle.std.specs.Prelude.{◌≡◌, ◌<◌, ◌+◌, Some, None};
ghost use Rattle.dash_base.specs.Places.{line_count};
ghost use Rattle.remote_cache.specs.Steps.{issued};
ghost use Rattle.unit_rows.specs.AskFits.{StoresAreOfMemory, uncopied, unowned, CausesJust};
ghost use Rattle.unit_rows.specs.Shown.{config, shown, AreSized};

use crate::needs::{needed_copy, needed_store, needed_write};
use crate::parts::Parts;
use crate::site::Site;
use ack_counter::AckTable;
use dash_base::LineId;
use remote_cache::{Phase, Slot};
use snoop_bus::Bus;

/// What a slot has cause to ask for: a front slot for its hart's instruction, a store slot for its hart's
/// oldest store. A prefetch slot has none.
pub fn cause(site: &Site, parts: &Parts, slot: u32) -> Option<Slot>
    requires sized { AreSized (config site.now) site.now.cluster.0 (shown parts.now) }
    requires stores { StoresAreOfMemory (config site.now) (shown parts.now) }
    ensures { CausesJust (config site.now) site.now.cluster.0 (shown parts.now) slot result }
{
    let harts = site.topology.harts;
    if slot < harts {
        return front_cause(site, parts, slot);
    }
    let hart = slot - harts;
    if hart >= harts {
        return None;
    }
    store_cause(site, parts, hart)
}

/// What a hart's front slot has cause to ask for: a line that its instruction reads and of which the
/// cluster has no copy, or one that it writes and of which the cluster has no owner.
fn front_cause(site: &Site, parts: &Parts, hart: u32) -> Option<Slot>
    requires sized { AreSized (config site.now) site.now.cluster.0 (shown parts.now) }
    requires hart { hart < site.now.topology.harts }
    ensures { CausesJust (config site.now) site.now.cluster.0 (shown parts.now) hart result }
{
    let read = needed_copy(site, parts, hart);
    if let Some(line) = uncopied(&parts.bus, read) {
        return Some(first_request(hart, line, false));
    }
    let written = needed_write(site, parts, hart);
    let line = unowned(&parts.bus, &parts.acks, written)?;
    Some(first_request(hart, line, true))
}

/// What a hart's store slot has cause to ask for: the line of its oldest store, of which the cluster has
/// no owner.
fn store_cause(site: &Site, parts: &Parts, hart: u32) -> Option<Slot>
    requires sized { AreSized (config site.now) site.now.cluster.0 (shown parts.now) }
    requires stores { StoresAreOfMemory (config site.now) (shown parts.now) }
    requires hart { hart < site.now.topology.harts }
    ensures { CausesJust (config site.now) site.now.cluster.0 (shown parts.now) (hart + site.now.topology.harts) result }
{
    let stored = needed_store(site, parts, hart);
    let line = unowned(&parts.bus, &parts.acks, stored)?;
    Some(first_request(hart, line, true))
}

/// A line that was found, unless the cluster has a copy of it.
fn uncopied(bus: &Bus, found: Option<LineId>) -> Option<LineId>
    ensures { result ≡ uncopied bus.now found }
{
    let line = found?;
    if bus.peek(line).is_some() {
        return None;
    }
    Some(line)
}

/// A line that was found, unless the cluster has an owner of it, or no room to count its acknowledgements.
fn unowned(bus: &Bus, acks: &AckTable, found: Option<LineId>) -> Option<LineId>
    ensures { result ≡ unowned bus.now acks.now found }
{
    let line = found?;
    if bus.owner(line).is_some() {
        return None;
    }
    if !acks.free() {
        return None;
    }
    Some(line)
}

/// A request as it is when it is first made.
fn first_request(hart: u32, line: LineId, own: bool) -> Slot
    ensures { result ≡ issued hart line own }
{
    Slot {
        hart,
        line,
        own,
        phase: Phase::Asked,
    }
}
