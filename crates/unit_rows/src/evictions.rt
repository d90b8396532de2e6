//! Lines that a hart gives up, to make room for others.
ghost use Rattle.std.specs.Prelude.{◌≡◌, ◌<◌, ◌∷◌, [], ◌&&◌, true, false, IsTrue, IfSome, IfNone, option_to_list};
ghost use Rattle.ack_counter.specs.View.{is_pending};
ghost use Rattle.snoop_bus.specs.Holding.{is_owner};
ghost use Rattle.snoop_bus.specs.View.{owner_at};
ghost use Rattle.unit_rows.specs.declared.choice.Choice.TheVariants.{Evict};
ghost use Rattle.unit_rows.specs.EvictFits.{EvictFits, event_of};
ghost use Rattle.unit_rows.specs.Rows.{DoesChoice, Cannot};
ghost use Rattle.unit_rows.specs.Shown.{config, shown, AreSized};

use crate::held::holds;
use crate::parts::Parts;
use crate::site::Site;
use crate::sweep::sweep;
use crate::wanted::wants_other;
use ack_counter::AckTable;
use dash_base::{LineId, home_among};
use dash_event::Kind;
use dash_msg::{Msg, Sent};
use snoop_bus::Bus;

/// Whether a hart may give up a line that it holds: it wants another line with its index, and is not
/// the owner of a line whose acknowledgements are pending.
pub fn fits_evict(site: &Site, parts: &Parts, hart: u32, line: LineId) -> bool
    requires sized { AreSized (config site.now) site.now.cluster.0 (shown parts.now) }
    requires hart { hart < site.now.topology.harts }
    ensures fits { IsTrue result → EvictFits (config site.now) site.now.cluster.0 (shown parts.now) hart line.0 }
    ensures idle { result ≡ false → Cannot (config site.now) site.now.cluster.0 (shown parts.now) (Evict hart line) }
{
    if !holds(&parts.bus, hart, line) {
        return false;
    }
    if stays(&parts.bus, &parts.acks, hart, line) {
        return false;
    }
    wants_other(site, parts, hart, line)
}

/// Whether a hart owns a line.
fn owns(bus: &Bus, hart: u32, line: LineId) -> bool
    ensures { result ≡ is_owner (owner_at bus.now line.0) hart }
{
    bus.owns(hart, line)
}

/// Whether a hart owns a line whose acknowledgements are pending.
fn stays(bus: &Bus, acks: &AckTable, hart: u32, line: LineId) -> bool
    ensures { result ≡ is_pending acks.now line.0 && is_owner (owner_at bus.now line.0) hart }
{
    let pending = acks.pending(line);
    let owned = owns(bus, hart, line);
    pending && owned
}

/// A hart gives up a line: its owner sends it home, and no hart of the cluster holds it any more; any
/// other holder leaves the copy to those that hold it too. Who held it and does not any more loses a
/// reservation in it.
pub fn evict(
    site: &Site,
    parts: &mut Parts,
    hart: u32,
    line: LineId,
) -> Option<(Kind, Option<Sent>)>
    requires sized { AreSized (config site.now) site.now.cluster.0 (shown parts.old) }
    requires hart { hart < site.now.topology.harts }
    ensures did { IfSome result (λ done. DoesChoice (config site.now) site.now.cluster.0 (Evict hart line) done.0 (shown parts.old) (shown parts.new) (option_to_list done.1)) }
    ensures idle { IfNone result (Cannot (config site.now) site.now.cluster.0 (shown parts.old) (Evict hart line)) }
    ensures unchanged { IfNone result (shown parts.new ≡ shown parts.old) }
    ensures sized { AreSized (config site.now) site.now.cluster.0 (shown parts.new) }
{
    if !fits_evict(site, parts, hart, line) {
        return None;
    }
    let event = Kind::Evict {
        hart: site.hart_id(hart),
        line,
    };
    if owns(&parts.bus, hart, line) {
        let sent = give_up(site, parts, hart, line);
        return Some((event, Some(sent)));
    }
    leave(site, parts, hart, line);
    Some((event, None))
}

/// The owner of a line sends it to its home, and no hart of the cluster holds it any more.
fn give_up(site: &Site, parts: &mut Parts, hart: u32, line: LineId) -> Sent
    requires sized { AreSized (config site.now) site.now.cluster.0 (shown parts.old) }
    requires hart { hart < site.now.topology.harts }
    requires fits { EvictFits (config site.now) site.now.cluster.0 (shown parts.old) hart line.0 }
    requires owner { is_owner (owner_at parts.old.bus line.0) hart ≡ true }
    ensures did { DoesChoice (config site.now) site.now.cluster.0 (Evict hart line) (event_of (config site.now) site.now.cluster.0 hart line) (shown parts.old) (shown parts.new) (result ∷ []) }
    ensures sized { AreSized (config site.now) site.now.cluster.0 (shown parts.new) }
{
    parts.bus.keeps_one_map();
    let copy = parts.bus.peek(line).unwrap();
    let before = parts.bus.holders(line);
    parts.bus.clear_all(line);
    sweep(site, &mut parts.locals, before, 0, line);
    let home = home_among(site.topology.clusters, line.0);
    Sent {
        to: home,
        msg: Msg::WriteBack { line, copy },
    }
}

/// A holder that is not the owner holds a line no more.
fn leave(site: &Site, parts: &mut Parts, hart: u32, line: LineId)
    requires sized { AreSized (config site.now) site.now.cluster.0 (shown parts.old) }
    requires hart { hart < site.now.topology.harts }
    requires fits { EvictFits (config site.now) site.now.cluster.0 (shown parts.old) hart line.0 }
    requires other { is_owner (owner_at parts.old.bus line.0) hart ≡ false }
    ensures did { DoesChoice (config site.now) site.now.cluster.0 (Evict hart line) (event_of (config site.now) site.now.cluster.0 hart line) (shown parts.old) (shown parts.new) [] }
    ensures sized { AreSized (config site.now) site.now.cluster.0 (shown parts.new) }
{
    parts.bus.keeps_one_map();
    let before = parts.bus.holders(line);
    parts.bus.drop_one(hart, line);
    let after = parts.bus.holders(line);
    sweep(site, &mut parts.locals, before, after, line);
}
