//! The slots of a cluster.
ghost use Rattle.std.specs.Prelude.{◌≡◌, ◌<◌, ◌≤◌, ◌+◌, true, IfSome, None, Some};
ghost use Rattle.dash_base.specs.Bounds.{IsBetween};
ghost use Rattle.dash_base.specs.Places as places;
ghost use Rattle.remote_cache.specs.View.{SlotsView, count, first_prefetch, is_prefetch, slot_at, slot_of, with_slot, empty_slots, IsOnePerLine, IsUsed};
ghost use Rattle.remote_cache.specs.Steps.{issued, is_refused, asked_again, arrived_in, reply_met, after_reply, after_inval};

use crate::slot::{Phase, Slot};
use crate::{change, search};
use arrayvec::ArrayVec;
use dash_base::{Line, LineId, first_prefetch};
use dash_msg::Msg;
use std::marker::Model;

/// The request slots of a cluster: one for each hart's loads and read-modify-writes, from 0 on, then
/// one for each hart's stores, then those for prefetches. Contracts see the number of harts, and by
/// the number of each slot what it has, if it is not empty. At most one slot has a line.
#[derive(Drop)]
pub struct Slots {
    harts: u32,
    slots: ArrayVec<Option<Slot>, 16>,
}

impl Model for Slots {
    ghost use Rattle.remote_cache.specs.View.{SlotsView};

    ghost Value = { SlotsView };

    ghost use Rattle.remote_cache.specs.Kept.{AreKept};

    ghost view = { λ s. record { harts = s.harts; slots = s.slots.items } };

    ghost invariant = { λ s. AreKept s.harts s.slots.items };
}

impl Slots {
    /// The empty slots of a cluster of 1 to 4 harts, with up to 8 for prefetches.
    pub fn new(harts: u32, prefetch: u32) -> Slots
        requires harts_in_range { IsBetween 1 4 harts }
        requires prefetch_in_range { prefetch ≤ 8 }
        ensures { result ≡ empty_slots harts (places.first_prefetch harts + prefetch) }
    {
        let mut slots = ArrayVec::new();
        for _ in 0..first_prefetch(harts) + prefetch {
            slots.push(None);
        }
        Slots { harts, slots }
    }

    /// How many slots there are. Each slot of a call is below this.
    pub fn count(&self) -> u32
        ensures { result ≡ count self.now }
    {
        self.slots.len() as u32
    }

    /// The number of the first slot for prefetches: all from there on are.
    pub fn first_prefetch(&self) -> u32
        ensures { result ≡ first_prefetch self.now }
    {
        first_prefetch(self.harts)
    }

    /// What a slot has. `None` where it is empty.
    pub fn get(&self, id: u32) -> Option<Slot>
        requires { id < count self.now }
        ensures { result ≡ slot_at self.now id }
    {
        self.slots[id as usize]
    }

    /// The number after that of the last slot that is not empty: 0 where all are.
    pub fn used(&self) -> u32
        ensures used { IsUsed self.now.slots result }
        ensures within { result ≤ count self.now }
    {
        search::used(&self.slots) as u32
    }

    /// What all slots keep: at most one of them has a line. The call does nothing.
    pub fn keeps_one_slot_a_line(&self)
        ensures { IsOnePerLine self.now.slots }
    {
        let _slots = &self.slots;
    }

    /// The slot that has a line. `None` where no slot has it.
    pub fn of_line(&self, line: LineId) -> Option<u32>
        ensures slot { result ≡ slot_of self.now line.0 }
        ensures in_range { IfSome result (λ id. id < count self.now) }
    {
        search::number_of(&self.slots, line).map(|id| id as u32)
    }

    /// A request for a line was sent, for a hart of the cluster by its number there. The slot is empty,
    /// as `get` says, and no slot has the line, as `of_line` says.
    pub fn issue(&mut self, id: u32, hart: u32, line: LineId, own: bool)
        requires in_range { id < count self.old }
        requires local { hart < self.old.harts }
        requires empty { slot_at self.old id ≡ None }
        requires no_other { slot_of self.old line.0 ≡ None }
        ensures { self.new ≡ with_slot self.old id (Some (issued hart line own)) }
    {
        self.slots[id as usize] = Some(Slot {
            hart,
            line,
            own,
            phase: Phase::Asked,
        });
    }

    /// The request of a refused slot was sent again: the slot waits for its reply as it did at first.
    pub fn ask_again(&mut self, id: u32)
        requires in_range { id < count self.old }
        requires refused { is_refused (slot_at self.old id) ≡ true }
        ensures { self.new ≡ with_slot self.old id (asked_again (slot_at self.old id)) }
    {
        let slot = self.get(id).unwrap();
        let again = Slot {
            phase: Phase::Asked,
            ..slot
        };
        self.slots[id as usize] = Some(again);
    }

    /// A reply came. Data comes to the slot of its line that waits for it, and is dropped by one that
    /// was poisoned, which is refused; so is a slot that waits and gets a Nak. A refused slot is to ask
    /// again, but one for prefetches is closed. The answer is the slot that the reply met: `None`
    /// where the message is no such reply or no slot waits for it, and then nothing changes.
    pub fn take_reply(&mut self, msg: &Msg) -> Option<u32>
        ensures met { result ≡ reply_met self.old msg.now }
        ensures after { self.new ≡ after_reply self.old msg.now }
    {
        let id = self.of_line(search::reply_line(msg)?)?;
        let slot = self.get(id)?;
        let change = change::on_reply(&slot, id >= self.first_prefetch(), msg);
        change::apply(&mut self.slots, id, change)
    }

    /// A line was invalidated. A slot that waits to read it is poisoned, and one to which a copy to
    /// read came is refused, as by a reply.
    pub fn poison(&mut self, line: LineId)
        ensures { self.new ≡ after_inval self.old line.0 }
    {
        if let Some(id) = self.of_line(line) {
            if let Some(slot) = self.get(id) {
                let change = change::on_inval(&slot, id >= self.first_prefetch());
                change::apply(&mut self.slots, id, change);
            }
        }
    }

    /// The copy that came to a slot and waits there. `None` where the slot is empty, or no copy came.
    pub fn arrived(&self, id: u32) -> Option<Line>
        requires { id < count self.now }
        ensures { result ≡ arrived_in (slot_at self.now id) }
    {
        match self.get(id)?.phase {
            Phase::Came(copy) => Some(copy),
            Phase::Asked | Phase::Poisoned | Phase::Refused => None,
        }
    }

    /// Empties a slot.
    pub fn close(&mut self, id: u32)
        requires { id < count self.old }
        ensures { self.new ≡ with_slot self.old id None }
    {
        self.slots[id as usize] = None;
    }
}
