//! Prefetch hints.
ghost use Rattle.std.specs.Prelude.{◌≡◌, ◌≢◌, ◌<◌, [], ◌∷◌, None, option_to_list};
ghost use Rattle.dash_base.specs.declared.need.HintKind.TheVariants.{Exclusive};
ghost use Rattle.dash_base.specs.declared.need.Need.TheVariants.{Hint};
ghost use Rattle.hart_core.specs.Access.{in_memory};
ghost use Rattle.unit_rows.specs.Shown.{shown, config, AreSized};
ghost use Rattle.unit_rows.specs.declared.choice.Choice.TheVariants.{Step};
ghost use Rattle.unit_rows.specs.Hints.{HintFits, OpensJust};
ghost use Rattle.unit_rows.specs.Rows.{DoesChoice};
ghost use Rattle.unit_rows.specs.Steps.{HartNeeds};

use crate::instructions::retire;
use crate::parts::Parts;
use crate::requests::asking;
use crate::site::Site;
use dash_base::{HintKind, WordAddr};
use dash_event::Kind;
use dash_msg::Sent;
use prefetch_unit::choose;

/// The slot that a hint opens. `None` where it opens none: it does nothing then.
pub fn opened(site: &Site, parts: &Parts, kind: HintKind, address: u32) -> Option<u32>
    ensures { OpensJust (config site.now) (shown parts.now) kind address result }
{
    if !in_memory(site, address) {
        return None;
    }
    let line = site.topology.line_of(WordAddr(address));
    let copy = parts.bus.peek(line).is_some();
    let owner = parts.bus.owner(line).is_some();
    choose(kind, line, copy, owner, &parts.slots, &parts.acks)
}

/// Whether memory has the byte at an address.
fn in_memory(site: &Site, address: u32) -> bool
    ensures { result ≡ in_memory site.now.topology address 1 }
{
    let first = site.topology.base;
    first <= address && address < first + site.topology.memory
}

/// A hint that opens no slot.
fn hint_nothing(site: &Site, parts: &mut Parts, hart: u32, kind: HintKind, address: u32) -> Kind
    requires sized { AreSized (config site.now) site.now.cluster.0 (shown parts.old) }
    requires hart { hart < site.now.topology.harts }
    requires need { HartNeeds (config site.now) (shown parts.old) hart (Hint kind address) }
    requires opens { OpensJust (config site.now) (shown parts.old) kind address None }
    ensures did { DoesChoice (config site.now) site.now.cluster.0 (Step hart) result (shown parts.old) (shown parts.new) [] }
    ensures sized { AreSized (config site.now) site.now.cluster.0 (shown parts.new) }
{
    parts.slots.keeps_one_slot_a_line();
    let pc = retire(site, parts, hart);
    Kind::Hint {
        hart: site.hart_id(hart),
        pc,
        slot: None,
    }
}

/// A hint to read, which opens this slot.
fn hint_read(
    site: &Site,
    parts: &mut Parts,
    hart: u32,
    kind: HintKind,
    address: u32,
    slot: u32,
) -> (Kind, Sent)
    requires sized { AreSized (config site.now) site.now.cluster.0 (shown parts.old) }
    requires hart { hart < site.now.topology.harts }
    requires need { HartNeeds (config site.now) (shown parts.old) hart (Hint kind address) }
    requires reads { kind ≢ Exclusive }
    requires opens { HintFits (config site.now) (shown parts.old) kind address slot }
    ensures did { DoesChoice (config site.now) site.now.cluster.0 (Step hart) result.0 (shown parts.old) (shown parts.new) (result.1 ∷ []) }
    ensures sized { AreSized (config site.now) site.now.cluster.0 (shown parts.new) }
{
    let line = site.topology.line_of(WordAddr(address));
    parts.slots.keeps_one_slot_a_line();
    parts.slots.issue(slot, hart, line, false);
    let pc = retire(site, parts, hart);
    let hint = Kind::Hint {
        hart: site.hart_id(hart),
        pc,
        slot: Some(slot),
    };
    (hint, asking(site, line, false))
}

/// A hint to own, which opens this slot. The line's acknowledgements are counted from here on.
fn hint_own(site: &Site, parts: &mut Parts, hart: u32, address: u32, slot: u32) -> (Kind, Sent)
    requires sized { AreSized (config site.now) site.now.cluster.0 (shown parts.old) }
    requires hart { hart < site.now.topology.harts }
    requires need { HartNeeds (config site.now) (shown parts.old) hart (Hint Exclusive address) }
    requires opens { HintFits (config site.now) (shown parts.old) Exclusive address slot }
    ensures did { DoesChoice (config site.now) site.now.cluster.0 (Step hart) result.0 (shown parts.old) (shown parts.new) (result.1 ∷ []) }
    ensures sized { AreSized (config site.now) site.now.cluster.0 (shown parts.new) }
{
    let line = site.topology.line_of(WordAddr(address));
    parts.slots.keeps_one_slot_a_line();
    parts.slots.issue(slot, hart, line, true);
    parts.acks.begin(line);
    let pc = retire(site, parts, hart);
    let hint = Kind::Hint {
        hart: site.hart_id(hart),
        pc,
        slot: Some(slot),
    };
    (hint, asking(site, line, true))
}

/// A hint that opens this slot: to own its line, or to read it.
fn hint_opening(
    site: &Site,
    parts: &mut Parts,
    hart: u32,
    kind: HintKind,
    address: u32,
    slot: u32,
) -> (Kind, Sent)
    requires sized { AreSized (config site.now) site.now.cluster.0 (shown parts.old) }
    requires hart { hart < site.now.topology.harts }
    requires need { HartNeeds (config site.now) (shown parts.old) hart (Hint kind address) }
    requires opens { HintFits (config site.now) (shown parts.old) kind address slot }
    ensures did { DoesChoice (config site.now) site.now.cluster.0 (Step hart) result.0 (shown parts.old) (shown parts.new) (result.1 ∷ []) }
    ensures sized { AreSized (config site.now) site.now.cluster.0 (shown parts.new) }
{
    match kind {
        HintKind::Exclusive => hint_own(site, parts, hart, address, slot),
        _ => hint_read(site, parts, hart, kind, address, slot),
    }
}

/// A prefetch hint: what happened, and the request that it sends where it opens a slot.
pub fn hint(
    site: &Site,
    parts: &mut Parts,
    hart: u32,
    kind: HintKind,
    address: u32,
) -> (Kind, Option<Sent>)
    requires sized { AreSized (config site.now) site.now.cluster.0 (shown parts.old) }
    requires hart { hart < site.now.topology.harts }
    requires need { HartNeeds (config site.now) (shown parts.old) hart (Hint kind address) }
    ensures did { DoesChoice (config site.now) site.now.cluster.0 (Step hart) result.0 (shown parts.old) (shown parts.new) (option_to_list result.1) }
    ensures sized { AreSized (config site.now) site.now.cluster.0 (shown parts.new) }
{
    match opened(site, parts, kind, address) {
        None => (hint_nothing(site, parts, hart, kind, address), None),
        Some(slot) => {
            let (event, sent) = hint_opening(site, parts, hart, kind, address, slot);
            (event, Some(sent))
        }
    }
}
