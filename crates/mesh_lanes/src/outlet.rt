//! The end of a lane that sends.
ghost use Rattle.std.specs.Prelude.{◌≡◌, ◌+◌, ◌-◌, ◌<◌, ◌≤◌, [], length, drop, IsTrue, IsFalse, OnOk};
ghost use Rattle.mesh_lanes.specs.View.{with_sent};

use dash_base::OutOfMemory;
use dash_msg::Parcel;
use rtrb::Producer;
use std::collections::VecDeque;
use std::marker::Model;

/// The most parcels that a spool may have: more lie beyond any memory.
const MOST: u32 = 2_147_483_647;

/// The sending end of a lane. Contracts see which lane it is of, all that was `sent`, the last part of
/// that which is in the `spool` and not in the ring yet, how much room in the ring is known to be
/// `free`, and for how many more parcels there is memory, `spare`.
#[derive(Drop)]
pub struct Outlet {
    pub(crate) ring: Producer<Parcel>,
    pub(crate) spool: VecDeque<Parcel>,
}

impl Model for Outlet {
    ghost use Rattle.mesh_lanes.specs.View.{OutletView};

    ghost Value = { OutletView };

    ghost use Rattle.std.specs.Prelude.{◌≡◌, ◌-◌, ◌++◌, ◌≤◌, min};
    ghost use Rattle.std.specs.VecDeque.{deque_len, deque_capacity};
    ghost use Rattle.rtrb.specs.Ring.{sent, known_free, producer_capacity};

    ghost view = { λ o. record {
      lane = record { words = o.ring.end.words; slots = o.ring.end.slots; names = o.ring.end.names };
      sent = sent o.ring ++ o.spool.items;
      spool = o.spool.items;
      free = known_free o.ring;
      spare = min (deque_capacity o.spool) 2147483647 - deque_len o.spool;
    } };

    ghost invariant = { λ o. (producer_capacity o.ring ≡ 64) × (deque_len o.spool ≤ 2147483647) };
}

impl Outlet {
    /// Takes memory, so that at least `n` parcels can be sent. The answer may be `OutOfMemory` also
    /// where a part of it was taken.
    pub fn reserve(&mut self, n: u32) -> Result<(), OutOfMemory>
        ensures ok { OnOk result (n ≤ self.new.spare) }
        ensures others { self.new ≡ record self.old { spare = self.new.spare } }
        ensures spare { self.old.spare ≤ self.new.spare }
    {
        if n > MOST - self.spool.len() as u32 {
            return Err(OutOfMemory);
        }
        self.spool.reserve(n as usize)?;
        Ok(())
    }

    /// Sends a parcel, after all that was sent before. It goes to the spool, and `flush` moves it on.
    pub fn send(&mut self, p: Parcel)
        requires { 0 < self.old.spare }
        ensures { self.new ≡ with_sent self.old p }
    {
        self.spool.push_back_reserved(p);
    }

    /// Moves parcels from the spool into the ring, in order, until the spool is empty or the ring is
    /// full.
    pub fn flush(&mut self)
        ensures lane { self.new.lane ≡ self.old.lane }
        ensures sent { self.new.sent ≡ self.old.sent }
        ensures fewer { length self.new.spool ≤ length self.old.spool }
        ensures last { self.new.spool ≡ drop (length self.old.spool - length self.new.spool) self.old.spool }
        ensures until { 0 < length self.new.spool → self.new.free ≡ 0 }
        ensures room { self.old.free + length self.new.spool ≤ self.new.free + length self.old.spool }
        ensures spare { self.new.spare + length self.new.spool ≡ self.old.spare + length self.old.spool }
    {
        while self.has_move() {
            self.move_first();
        }
    }

    // Whether the spool has a parcel that the ring has room for.
    fn has_move(&mut self) -> bool
        ensures looked { self.new ≡ record self.old { free = self.new.free } }
        ensures room { self.old.free ≤ self.new.free }
        ensures yes { IsTrue result → (0 < length self.old.spool) × (0 < self.new.free) }
        ensures no { IsFalse result → 0 < length self.old.spool → self.new.free ≡ 0 }
    {
        !self.spool.is_empty() && !self.ring.is_full()
    }

    // The first parcel of the spool goes into the ring.
    fn move_first(&mut self)
        requires { (0 < length self.old.spool) × (0 < self.old.free) }
        ensures { self.new ≡ record self.old { spool = drop 1 self.old.spool; free = self.old.free - 1; spare = self.old.spare + 1 } }
    {
        if let Some(p) = self.spool.pop_front() {
            self.ring.push_reserved(p);
        }
    }
}
