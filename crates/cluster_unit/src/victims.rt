//! Which lines stand in the way of those that a hart wants.
ghost use Rattle.std.specs.Prelude.{◌≡◌, ◌+◌, ◌<◌, ◌≤◌};
ghost use Rattle.arrayvec.specs.ArrayVec.{array_vec_len};
ghost use Rattle.remote_cache.specs.View.{count, slot_at};
ghost use Rattle.snoop_bus.specs.View.{harts};
ghost use Rattle.unit_rows.specs.AllNeeds.{AreNeeded};
ghost use Rattle.unit_rows.specs.Shown.{config, shown, AreSized};
ghost use Rattle.cluster_unit.specs.Victims.{IsRising, IsIn, Keeps, came_line, HasCame, HasVictimOf, HasVictims};

use arrayvec::ArrayVec;
use dash_base::LineId;
use remote_cache::{Phase, Slots};
use snoop_bus::Bus;
use unit_rows::{Needed, Parts, Site, find_needed};

/// How many lines a hart can want at most: one of each slot, and three of its instruction and its
/// oldest store.
const MOST_WANTED: usize = 19;

/// The lines that a hart holds in the way of one that came for it, or that it needs, as their numbers
/// rise. Each line that it may give up is among them.
pub fn victims(site: &Site, parts: &Parts, hart: u32) -> ArrayVec<u32, MOST_WANTED>
    requires sized { AreSized (config site.now) site.now.cluster.0 (shown parts.now) }
    requires hart { hart < site.now.topology.harts }
    ensures rising { IsRising result.items }
    ensures whole { HasVictims (config site.now) site.now.cluster.0 (shown parts.now) hart result.items }
    ensures few { array_vec_len result ≤ 19 }
{
    let needed = find_needed(site, parts, hart);
    victims_of(site, parts, hart, needed)
}

/// The same, where the lines that the hart needs were found.
pub fn victims_of(
    site: &Site,
    parts: &Parts,
    hart: u32,
    needed: Needed,
) -> ArrayVec<u32, MOST_WANTED>
    requires sized { AreSized (config site.now) site.now.cluster.0 (shown parts.now) }
    requires hart { hart < site.now.topology.harts }
    requires needed { AreNeeded (config site.now) site.now.cluster.0 (shown parts.now) hart needed }
    ensures rising { IsRising result.items }
    ensures whole { HasVictims (config site.now) site.now.cluster.0 (shown parts.now) hart result.items }
    ensures few { array_vec_len result ≤ 19 }
{
    let mut lines = ArrayVec::new();
    add_came(&parts.slots, &parts.bus, hart, &mut lines);
    add_victim(&parts.bus, hart, needed.copy, &mut lines);
    add_victim(&parts.bus, hart, needed.write, &mut lines);
    add_victim(&parts.bus, hart, needed.store, &mut lines);
    lines
}

/// Adds the lines that a hart holds in the way of those that came for it.
fn add_came(slots: &Slots, bus: &Bus, hart: u32, lines: &mut ArrayVec<u32, MOST_WANTED>)
    requires hart { hart < harts bus.now }
    requires rising { IsRising lines.old.items }
    requires room { array_vec_len lines.old + count slots.now ≤ 19 }
    ensures rising { IsRising lines.new.items }
    ensures short { array_vec_len lines.new ≤ array_vec_len lines.old + count slots.now }
    ensures came { HasCame bus.now slots.now hart (count slots.now) lines.new.items }
{
    for id in 0..slots.used() {
        let found = came_line(slots, hart, id);
        add_victim(bus, hart, found, lines);
    }
}

/// The line that came to a slot, for a hart.
fn came_line(slots: &Slots, hart: u32, id: u32) -> Option<LineId>
    requires { id < count slots.now }
    ensures { result ≡ came_line hart (slot_at slots.now id) }
{
    let slot = slots.get(id)?;
    if slot.hart != hart {
        return None;
    }
    match slot.phase {
        Phase::Came(_) => Some(slot.line),
        Phase::Asked | Phase::Poisoned | Phase::Refused => None,
    }
}

/// Adds the line that a hart holds in the way of a line that was found.
fn add_victim(bus: &Bus, hart: u32, found: Option<LineId>, lines: &mut ArrayVec<u32, MOST_WANTED>)
    requires hart { hart < harts bus.now }
    requires rising { IsRising lines.old.items }
    requires room { array_vec_len lines.old < 19 }
    ensures rising { IsRising lines.new.items }
    ensures short { array_vec_len lines.new ≤ array_vec_len lines.old + 1 }
    ensures keeps { Keeps lines.old.items lines.new.items }
    ensures has { HasVictimOf bus.now hart found lines.new.items }
{
    bus.keeps_one_map();
    let Some(wanted) = found else {
        return;
    };
    let Some(line) = bus.victim(hart, wanted) else {
        return;
    };
    add_line(lines, line.0);
}

/// Adds a line, where it is not there yet.
fn add_line(lines: &mut ArrayVec<u32, MOST_WANTED>, line: u32)
    requires rising { IsRising lines.old.items }
    requires room { array_vec_len lines.old < 19 }
    ensures rising { IsRising lines.new.items }
    ensures short { array_vec_len lines.new ≤ array_vec_len lines.old + 1 }
    ensures keeps { Keeps lines.old.items lines.new.items }
    ensures has { IsIn lines.new.items line }
{
    let Err(place) = lines.as_slice().binary_search(&line) else {
        return;
    };
    lines.insert(place, line);
}
