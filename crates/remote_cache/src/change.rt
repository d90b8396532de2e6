//! What a message makes of the slot of its line.
ghost use Rattle.std.specs.Prelude.{◌≡◌, ◌<◌, length};
ghost use Rattle.remote_cache.specs.declared.slot.Phase.TheVariants.{Came};
ghost use Rattle.remote_cache.specs.Rows.{in_phase, refused, on_data, on_data_ex, on_nak, on_reply, on_inval};
ghost use Rattle.remote_cache.specs.Steps.{changed_in, number_met};

use crate::slot::{Phase, Slot};
use dash_base::Line;
use dash_msg::Msg;

/// What becomes of a slot.
#[derive(Clone, Copy, Debug, PartialEq, Eq)]
pub enum Change {
    /// Nothing: the message does not meet it.
    Stays,
    /// It is this one.
    Becomes(Slot),
    /// It is empty.
    Closes,
}

/// A slot whose request is refused: it is to ask again, but a prefetch slot is closed.
fn refused(slot: &Slot, prefetch: bool) -> Change
    ensures { result ≡ refused prefetch slot.now }
{
    if prefetch {
        Change::Closes
    } else {
        Change::Becomes(Slot {
            phase: Phase::Refused,
            ..*slot
        })
    }
}

/// A slot whose copy came.
fn came(slot: &Slot, copy: Line) -> Change
    ensures { result ≡ in_phase slot.now (Came copy) }
{
    Change::Becomes(Slot {
        phase: Phase::Came(copy),
        ..*slot
    })
}

/// A copy to read came.
fn on_data(slot: &Slot, prefetch: bool, copy: Line) -> Change
    ensures { result ≡ on_data prefetch copy slot.now slot.now.own slot.now.phase }
{
    match (slot.own, slot.phase) {
        (false, Phase::Asked) => came(slot, copy),
        (false, Phase::Poisoned) => refused(slot, prefetch),
        _ => Change::Stays,
    }
}

/// A line to own came.
fn on_data_ex(slot: &Slot, copy: Line) -> Change
    ensures { result ≡ on_data_ex copy slot.now slot.now.own slot.now.phase }
{
    match (slot.own, slot.phase) {
        (true, Phase::Asked) => came(slot, copy),
        _ => Change::Stays,
    }
}

/// A refusal came.
fn on_nak(slot: &Slot, prefetch: bool) -> Change
    ensures { result ≡ on_nak prefetch slot.now slot.now.phase }
{
    match slot.phase {
        Phase::Asked | Phase::Poisoned => refused(slot, prefetch),
        Phase::Refused | Phase::Came(_) => Change::Stays,
    }
}

/// A reply of the slot's line came.
pub fn on_reply(slot: &Slot, prefetch: bool, msg: &Msg) -> Change
    ensures { result ≡ on_reply prefetch msg.now slot.now }
{
    match msg {
        Msg::Data { copy, .. } => on_data(slot, prefetch, *copy),
        Msg::DataEx { copy, .. } => on_data_ex(slot, *copy),
        Msg::Nak { .. } => on_nak(slot, prefetch),
        _ => Change::Stays,
    }
}

/// The slot's line was invalidated.
pub fn on_inval(slot: &Slot, prefetch: bool) -> Change
    ensures { result ≡ on_inval prefetch slot.now slot.now.own slot.now.phase }
{
    match (slot.own, slot.phase) {
        (false, Phase::Asked) => Change::Becomes(Slot {
            phase: Phase::Poisoned,
            ..*slot
        }),
        (false, Phase::Came(_)) => refused(slot, prefetch),
        _ => Change::Stays,
    }
}

/// Changes the slot of a number. The answer is that number, unless the slot stays.
pub fn apply(slots: &mut [Option<Slot>], id: u32, change: Change) -> Option<u32>
    requires { id < length slots.old }
    ensures met { result ≡ number_met id change }
    ensures slots { slots.new ≡ changed_in slots.old id change }
{
    match change {
        Change::Stays => return None,
        Change::Becomes(slot) => slots[id as usize] = Some(slot),
        Change::Closes => slots[id as usize] = None,
    }
    Some(id)
}
