//! Which slots are refused, and what becomes of one that asks again.
ghost use Rattle.std.specs.Prelude.{◌≡◌, ◌<◌, true, MatchOption};
ghost use Rattle.remote_cache.specs.View.{count, slot_at, with_slot};
ghost use Rattle.remote_cache.specs.Steps.{is_refused, asked_again};
ghost use Rattle.nak_retry.specs.Least.{NoneRefused, IsLeastRefused};

use remote_cache::{Phase, Slots};

/// Whether the request of a slot was refused, and is to be sent again.
pub fn refused(slots: &Slots, id: u32) -> bool
    requires { id < count slots.now }
    ensures { result ≡ is_refused (slot_at slots.now id) }
{
    match slots.get(id) {
        None => false,
        Some(slot) => match slot.phase {
            Phase::Refused => true,
            Phase::Asked | Phase::Poisoned | Phase::Came(_) => false,
        },
    }
}

/// The request of a refused slot was sent again: the slot waits for its reply as it did at first, and
/// no other slot changes.
pub fn reissue(slots: &mut Slots, id: u32)
    requires in_range { id < count slots.old }
    requires refused { is_refused (slot_at slots.old id) ≡ true }
    ensures { slots.new ≡ with_slot slots.old id (asked_again (slot_at slots.old id)) }
{
    slots.ask_again(id);
}

/// The least refused slot that is not below `from`, which may be any number. `None` where there is
/// none.
pub fn next_refused(slots: &Slots, from: u32) -> Option<u32>
    ensures { MatchOption result (NoneRefused slots.now from) (IsLeastRefused slots.now from) }
{
    for id in from..slots.count() {
        if refused(slots, id) {
            return Some(id);
        }
    }
    None
}
