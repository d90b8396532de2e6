//! Requests for lines.
ghost use Rattle.std.specs.Prelude.{◌≡◌, ◌<◌, [], ◌∷◌, true, IfSome, IfNone};
ghost use Rattle.ack_counter.specs.View.{count as acks_count};
ghost use Rattle.dash_model.specs.Config.{home_of};
ghost use Rattle.dash_model.specs.Net.{to};
ghost use Rattle.remote_cache.specs.View.{count};
ghost use Rattle.unit_rows.specs.declared.choice.Choice.TheVariants.{Ask, Again};
ghost use Rattle.unit_rows.specs.AskFits.{StoresAreOfMemory, RequestFits, asked_acks};
ghost use Rattle.unit_rows.specs.Rows.{DoesChoice, Cannot};
ghost use Rattle.unit_rows.specs.Shown.{config, shown, AreSized};
ghost use Rattle.unit_rows.specs.SlotFits.{AgainFits, request_for};

use crate::causes::cause;
use crate::parts::Parts;
use crate::site::Site;
use ack_counter::AckTable;
use dash_base::{LineId, home_among};
use dash_event::Kind;
use dash_msg::{Msg, Sent};
use nak_retry::{refused, reissue};
use remote_cache::Slot;

/// The request that an empty slot may make. No slot has its line.
pub fn fits_request(site: &Site, parts: &Parts, slot: u32) -> Option<Slot>
    requires sized { AreSized (config site.now) site.now.cluster.0 (shown parts.now) }
    requires stores { StoresAreOfMemory (config site.now) (shown parts.now) }
    requires slot { slot < count parts.now.slots }
    ensures fits { IfSome result (λ request. RequestFits (config site.now) site.now.cluster.0 (shown parts.now) slot request) }
    ensures idle { IfNone result (Cannot (config site.now) site.now.cluster.0 (shown parts.now) (Ask slot)) }
{
    parts.slots.keeps_one_slot_a_line();
    if parts.slots.get(slot).is_some() {
        return None;
    }
    let request = cause(site, parts, slot)?;
    if parts.slots.of_line(request.line).is_some() {
        return None;
    }
    Some(request)
}

/// A slot asks a line's home for the line, which its hart needs and its cluster has not. Of a line that
/// is to be owned acknowledgements are counted from here on.
pub fn request(site: &Site, parts: &mut Parts, slot: u32) -> Option<(Kind, Sent)>
    requires sized { AreSized (config site.now) site.now.cluster.0 (shown parts.old) }
    requires stores { StoresAreOfMemory (config site.now) (shown parts.old) }
    requires slot { slot < count parts.old.slots }
    ensures did { IfSome result (λ done. DoesChoice (config site.now) site.now.cluster.0 (Ask slot) done.0 (shown parts.old) (shown parts.new) (done.1 ∷ [])) }
    ensures idle { IfNone result (Cannot (config site.now) site.now.cluster.0 (shown parts.old) (Ask slot)) }
    ensures unchanged { IfNone result (shown parts.new ≡ shown parts.old) }
    ensures sized { AreSized (config site.now) site.now.cluster.0 (shown parts.new) }
{
    let request = fits_request(site, parts, slot)?;
    let line = request.line;
    let own = request.own;
    parts.slots.keeps_one_slot_a_line();
    parts.slots.issue(slot, request.hart, line, own);
    count_owned(&mut parts.acks, line, own);
    let event = Kind::Ask {
        slot,
        hart: site.hart_id(request.hart),
        line,
        own,
    };
    Some((event, asking(site, line, own)))
}

/// Acknowledgements of a line are counted from here on, if it is to be owned.
fn count_owned(acks: &mut AckTable, line: LineId, own: bool)
    requires { own ≡ true → acks_count acks.old < acks.old.capacity }
    ensures { acks.new ≡ asked_acks acks.old line.0 own }
{
    if !own {
        return;
    }
    acks.begin(line);
}

/// What a slot has whose request was refused.
pub fn fits_again(site: &Site, parts: &Parts, slot: u32) -> Option<Slot>
    requires sized { AreSized (config site.now) site.now.cluster.0 (shown parts.now) }
    requires slot { slot < count parts.now.slots }
    ensures fits { IfSome result (λ request. AgainFits (shown parts.now) slot request) }
    ensures idle { IfNone result (Cannot (config site.now) site.now.cluster.0 (shown parts.now) (Again slot)) }
{
    parts.slots.keeps_one_slot_a_line();
    let request = parts.slots.get(slot)?;
    if !refused(&parts.slots, slot) {
        return None;
    }
    Some(request)
}

/// A slot whose request was refused asks the line's home again.
pub fn again(site: &Site, parts: &mut Parts, slot: u32) -> Option<(Kind, Sent)>
    requires sized { AreSized (config site.now) site.now.cluster.0 (shown parts.old) }
    requires slot { slot < count parts.old.slots }
    ensures did { IfSome result (λ done. DoesChoice (config site.now) site.now.cluster.0 (Again slot) done.0 (shown parts.old) (shown parts.new) (done.1 ∷ [])) }
    ensures idle { IfNone result (Cannot (config site.now) site.now.cluster.0 (shown parts.old) (Again slot)) }
    ensures unchanged { IfNone result (shown parts.new ≡ shown parts.old) }
    ensures sized { AreSized (config site.now) site.now.cluster.0 (shown parts.new) }
{
    let request = fits_again(site, parts, slot)?;
    let line = request.line;
    parts.slots.keeps_one_slot_a_line();
    reissue(&mut parts.slots, slot);
    let sent = asking(site, line, request.own);
    Some((Kind::Again { slot, line }, sent))
}

/// The message that asks a line's home for the line, to own it or to read it.
pub fn asking(site: &Site, line: LineId, own: bool) -> Sent
    ensures { result ≡ to (home_of (config site.now) line.0) (request_for line own) }
{
    let msg = if own {
        Msg::ReadEx { line }
    } else {
        Msg::Read { line }
    };
    Sent {
        to: home_among(site.topology.clusters, line.0),
        msg,
    }
}
