//! Lines that a hart gets from its cluster.
ghost use Rattle.std.specs.Prelude.{◌≡◌, ◌<◌, [], IsTrue, false, IfSome, IfNone};
ghost use Rattle.dash_model.specs.Part.{Part};
ghost use Rattle.dash_model.specs.Wants.{NeedsCopy, NeedsOwn};
ghost use Rattle.unit_rows.specs.declared.choice.Choice.TheVariants.{BusRead, BusOwn};
ghost use Rattle.unit_rows.specs.BusFits.{BusReadFits, BusOwnFits};
ghost use Rattle.unit_rows.specs.Rows.{DoesChoice, Cannot};
ghost use Rattle.unit_rows.specs.Shown.{config, shown, hart_at, Shows, AreSized};

use crate::needs::{is_this, needed_copy, needs_own};
use crate::parts::Parts;
use crate::site::Site;
use crate::sweep::sweep;
use dash_base::LineId;
use dash_event::Kind;

/// Whether a hart needs a copy of a line that its cluster has, and has room for it.
pub fn fits_bus_read(site: &Site, parts: &Parts, hart: u32, line: LineId) -> bool
    requires sized { AreSized (config site.now) site.now.cluster.0 (shown parts.now) }
    requires hart { hart < site.now.topology.harts }
    ensures fits { IsTrue result → BusReadFits (config site.now) site.now.cluster.0 (shown parts.now) hart line.0 }
    ensures idle { result ≡ false → Cannot (config site.now) site.now.cluster.0 (shown parts.now) (BusRead hart line) }
{
    if !is_this(needed_copy(site, parts, hart), line) {
        return false;
    }
    fits_needed_read(site, parts, hart, line)
}

/// Whether the cluster has a line that a hart needs a copy of, and the hart has room for it.
pub fn fits_needed_read(site: &Site, parts: &Parts, hart: u32, line: LineId) -> bool
    requires sized { AreSized (config site.now) site.now.cluster.0 (shown parts.now) }
    requires hart { hart < site.now.topology.harts }
    requires needed { (p : Part) → Shows (config site.now) site.now.cluster.0 (shown parts.now) p → NeedsCopy (config site.now) (hart_at (config site.now) site.now.cluster.0 hart) line.0 p }
    ensures fits { IsTrue result → BusReadFits (config site.now) site.now.cluster.0 (shown parts.now) hart line.0 }
    ensures idle { result ≡ false → Cannot (config site.now) site.now.cluster.0 (shown parts.now) (BusRead hart line) }
{
    if parts.bus.peek(line).is_none() {
        return false;
    }
    parts.bus.room(hart, line)
}

/// A hart becomes a holder of a line that its cluster has.
pub fn bus_read(site: &Site, parts: &mut Parts, hart: u32, line: LineId) -> Option<Kind>
    requires sized { AreSized (config site.now) site.now.cluster.0 (shown parts.old) }
    requires hart { hart < site.now.topology.harts }
    ensures did { IfSome result (λ kind. DoesChoice (config site.now) site.now.cluster.0 (BusRead hart line) kind (shown parts.old) (shown parts.new) []) }
    ensures idle { IfNone result (Cannot (config site.now) site.now.cluster.0 (shown parts.old) (BusRead hart line)) }
    ensures unchanged { IfNone result (shown parts.new ≡ shown parts.old) }
    ensures sized { AreSized (config site.now) site.now.cluster.0 (shown parts.new) }
{
    if !fits_bus_read(site, parts, hart, line) {
        return None;
    }
    parts.bus.keeps_one_map();
    parts.bus.bus_read(hart, line);
    Some(Kind::BusRead {
        hart: site.hart_id(hart),
        line,
    })
}

/// Whether a hart needs to own a line of which its cluster has an owner, and has room for it.
pub fn fits_bus_own(site: &Site, parts: &Parts, hart: u32, line: LineId) -> bool
    requires sized { AreSized (config site.now) site.now.cluster.0 (shown parts.now) }
    requires hart { hart < site.now.topology.harts }
    ensures fits { IsTrue result → BusOwnFits (config site.now) site.now.cluster.0 (shown parts.now) hart line.0 }
    ensures idle { result ≡ false → Cannot (config site.now) site.now.cluster.0 (shown parts.now) (BusOwn hart line) }
{
    if !needs_own(site, parts, hart, line) {
        return false;
    }
    fits_needed_own(site, parts, hart, line)
}

/// Whether the cluster has an owner of a line that a hart needs to own, and the hart has room for it.
pub fn fits_needed_own(site: &Site, parts: &Parts, hart: u32, line: LineId) -> bool
    requires sized { AreSized (config site.now) site.now.cluster.0 (shown parts.now) }
    requires hart { hart < site.now.topology.harts }
    requires needed { (p : Part) → Shows (config site.now) site.now.cluster.0 (shown parts.now) p → NeedsOwn (config site.now) (hart_at (config site.now) site.now.cluster.0 hart) line.0 p }
    ensures fits { IsTrue result → BusOwnFits (config site.now) site.now.cluster.0 (shown parts.now) hart line.0 }
    ensures idle { result ≡ false → Cannot (config site.now) site.now.cluster.0 (shown parts.now) (BusOwn hart line) }
{
    if parts.bus.owner(line).is_none() {
        return false;
    }
    parts.bus.room(hart, line)
}

/// A hart becomes the owner and the only holder of a line of which its cluster has the owner. Those
/// who held it lose their reservations in it.
pub fn bus_own(site: &Site, parts: &mut Parts, hart: u32, line: LineId) -> Option<Kind>
    requires sized { AreSized (config site.now) site.now.cluster.0 (shown parts.old) }
    requires hart { hart < site.now.topology.harts }
    ensures did { IfSome result (λ kind. DoesChoice (config site.now) site.now.cluster.0 (BusOwn hart line) kind (shown parts.old) (shown parts.new) []) }
    ensures idle { IfNone result (Cannot (config site.now) site.now.cluster.0 (shown parts.old) (BusOwn hart line)) }
    ensures unchanged { IfNone result (shown parts.new ≡ shown parts.old) }
    ensures sized { AreSized (config site.now) site.now.cluster.0 (shown parts.new) }
{
    if !fits_bus_own(site, parts, hart, line) {
        return None;
    }
    parts.bus.keeps_one_map();
    let before = parts.bus.holders(line);
    parts.bus.bus_own(hart, line);
    let after = parts.bus.holders(line);
    sweep(site, &mut parts.locals, before, after, line);
    Some(Kind::BusOwn {
        hart: site.hart_id(hart),
        line,
    })
}
