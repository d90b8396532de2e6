//! Lines that came, which enter the caches of the harts that asked for them.
ghost use Rattle.std.specs.Prelude.{◌≡◌, ◌<◌, ◌&&◌, not, [], IfSome, IfNone};
ghost use Rattle.snoop_bus.specs.Holding.{has_hart};
ghost use Rattle.remote_cache.specs.View.{count};
ghost use Rattle.unit_rows.specs.declared.choice.Choice.TheVariants.{Install};
ghost use Rattle.unit_rows.specs.Rows.{DoesChoice, Cannot};
ghost use Rattle.unit_rows.specs.Shown.{config, shown, AreSized};
ghost use Rattle.unit_rows.specs.SlotFits.{InstallFits};

use crate::held::has_hart;
use crate::parts::Parts;
use crate::site::Site;
use crate::sweep::{clear, sweep};
use dash_base::Line;
use dash_event::Kind;
use remote_cache::Slot;

/// What a slot has and the copy that came to it, where its hart has room for the line.
pub fn fits_install(site: &Site, parts: &Parts, slot: u32) -> Option<(Slot, Line)>
    requires sized { AreSized (config site.now) site.now.cluster.0 (shown parts.now) }
    requires slot { slot < count parts.now.slots }
    ensures fits { IfSome result (λ found. InstallFits (config site.now) (shown parts.now) slot found.0 found.1) }
    ensures idle { IfNone result (Cannot (config site.now) site.now.cluster.0 (shown parts.now) (Install slot)) }
{
    let request = parts.slots.get(slot)?;
    let copy = parts.slots.arrived(slot)?;
    if !parts.bus.room(request.hart, request.line) {
        return None;
    }
    Some((request, copy))
}

/// The line that came to a slot is installed: the slot's hart is its only holder, and of a line to own
/// the owner, and the slot closes. Those who held the line lose their reservations in it, and of a
/// line to own a hart that did not hold it, too.
pub fn install(site: &Site, parts: &mut Parts, slot: u32) -> Option<Kind>
    requires sized { AreSized (config site.now) site.now.cluster.0 (shown parts.old) }
    requires slot { slot < count parts.old.slots }
    ensures did { IfSome result (λ kind. DoesChoice (config site.now) site.now.cluster.0 (Install slot) kind (shown parts.old) (shown parts.new) []) }
    ensures idle { IfNone result (Cannot (config site.now) site.now.cluster.0 (shown parts.old) (Install slot)) }
    ensures unchanged { IfNone result (shown parts.new ≡ shown parts.old) }
    ensures sized { AreSized (config site.now) site.now.cluster.0 (shown parts.new) }
{
    let (request, copy) = fits_install(site, parts, slot)?;
    let line = request.line;
    parts.bus.keeps_one_map();
    parts.slots.keeps_one_slot_a_line();
    let before = parts.bus.holders(line);
    let clears = is_new_owner(request.own, before, request.hart);
    let local = &mut parts.locals[request.hart as usize];
    clear(site, local, line, clears);
    parts.bus.install(request.hart, line, copy, request.own);
    parts.slots.close(slot);
    let after = parts.bus.holders(line);
    sweep(site, &mut parts.locals, before, after, line);
    Some(Kind::Install {
        slot,
        hart: site.hart_id(request.hart),
        line,
    })
}

/// Whether a hart that is to own a line was not among its holders.
fn is_new_owner(own: bool, holders: u32, hart: u32) -> bool
    requires { hart < 4 }
    ensures { result ≡ own && not (has_hart holders hart) }
{
    if own { !has_hart(holders, hart) } else { false }
}
