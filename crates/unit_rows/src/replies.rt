//! Replies: the lines that were asked for, refusals, and acknowledgements.
ghost use Rattle.std.specs.Prelude.{◌≡◌, [], nat_lt};
ghost use Rattle.dash_base.specs.declared.id.ClusterId.{ClusterId as Sender};
ghost use Rattle.dash_base.specs.Places.{line_count};
ghost use Rattle.dash_msg.specs.declared.msg.Msg.TheVariants as message;
ghost use Rattle.ack_counter.specs.View.{got_at};
ghost use Rattle.unit_rows.specs.Shown.{config, shown, AreSized};
ghost use Rattle.unit_rows.specs.Takes.{Takes};
ghost use Rattle.unit_rows.specs.Replies.{prefetch_owns, counts_more};

use crate::parts::Parts;
use crate::site::Site;
use ack_counter::AckTable;
use dash_base::{Line, LineId};
use dash_msg::Msg;
use remote_cache::Slots;

/// Whether memory has a line.
pub fn has_line(site: &Site, line: LineId) -> bool
    ensures { result ≡ nat_lt line.0 (line_count site.now.topology) }
{
    line.0 < site.topology.line_count()
}

/// Takes a Data from any cluster: the copy comes to the slot of its line that waits to read it.
pub fn data(site: &Site, parts: &mut Parts, line: LineId, copy: Line)
    requires { AreSized (config site.now) site.now.cluster.0 (shown parts.old) }
    ensures took { (from : Sender) → Takes (config site.now) site.now.cluster.0 from
        (message.Data line copy) (shown parts.old) (shown parts.new) [] }
    ensures sized { AreSized (config site.now) site.now.cluster.0 (shown parts.new) }
{
    if !has_line(site, line) {
        return;
    }
    parts.slots.keeps_one_slot_a_line();
    let _met = parts.slots.take_reply(&Msg::Data { line, copy });
}

/// Takes a DataEx from any cluster: the line comes to its slot that waits to own it, and so many
/// acknowledgements are expected.
pub fn data_ex(site: &Site, parts: &mut Parts, line: LineId, copy: Line, count: u32)
    requires { AreSized (config site.now) site.now.cluster.0 (shown parts.old) }
    ensures took { (from : Sender) → Takes (config site.now) site.now.cluster.0 from
        (message.DataEx line copy count) (shown parts.old) (shown parts.new) [] }
    ensures sized { AreSized (config site.now) site.now.cluster.0 (shown parts.new) }
{
    if !has_line(site, line) {
        return;
    }
    parts.slots.keeps_one_slot_a_line();
    let met = parts.slots.take_reply(&Msg::DataEx { line, copy, count });
    if met.is_none() {
        return;
    }
    parts.acks.grant(line, count);
}

/// Whether a line has a prefetch slot that is to own it.
fn prefetch_owns(slots: &Slots, line: LineId) -> bool
    ensures { result ≡ prefetch_owns slots.now line.0 }
{
    match slots.of_line(line) {
        None => false,
        Some(id) => match slots.get(id) {
            None => false,
            Some(slot) => id >= slots.first_prefetch() && slot.own,
        },
    }
}

/// Takes a Nak from any cluster: the slot of its line that waits is refused, and with a prefetch slot
/// that is to own the line its acknowledgements go.
pub fn nak(site: &Site, parts: &mut Parts, line: LineId)
    requires { AreSized (config site.now) site.now.cluster.0 (shown parts.old) }
    ensures took { (from : Sender) → Takes (config site.now) site.now.cluster.0 from
        (message.Nak line) (shown parts.old) (shown parts.new) [] }
    ensures sized { AreSized (config site.now) site.now.cluster.0 (shown parts.new) }
{
    if !has_line(site, line) {
        return;
    }
    parts.slots.keeps_one_slot_a_line();
    let owned = prefetch_owns(&parts.slots, line);
    let met = parts.slots.take_reply(&Msg::Nak { line });
    if !owned {
        return;
    }
    if met.is_none() {
        return;
    }
    parts.acks.cancel(line);
}

/// Whether one acknowledgement more can be counted of a line: not past `u32::MAX`.
fn counts_more(acks: &AckTable, line: LineId) -> bool
    ensures { result ≡ counts_more (got_at acks.now line.0) }
{
    match acks.got(line) {
        None => true,
        Some(got) => got < u32::MAX,
    }
}

/// Takes an Ack or a TransferAck from any cluster: one more acknowledgement of the line came.
pub fn ack(site: &Site, parts: &mut Parts, line: LineId)
    requires { AreSized (config site.now) site.now.cluster.0 (shown parts.old) }
    ensures took { (from : Sender) → Takes (config site.now) site.now.cluster.0 from
        (message.Ack line) (shown parts.old) (shown parts.new) [] }
    ensures transferred { (from : Sender) → Takes (config site.now) site.now.cluster.0 from
        (message.TransferAck line) (shown parts.old) (shown parts.new) [] }
    ensures sized { AreSized (config site.now) site.now.cluster.0 (shown parts.new) }
{
    if !has_line(site, line) {
        return;
    }
    if !counts_more(&parts.acks, line) {
        return;
    }
    parts.acks.ack(line);
}
