//! The two ends of a lane on one thread.
ghost use Rattle.std.specs.Prelude.{◌≡◌, ◌+◌, ◌<◌, ◌≤◌, ◌++◌, length};
ghost use mathlib.Core.List.{IsPrefix};

use crate::inlet::Inlet;
use crate::outlet::Outlet;

/// Lets the two ends of one lane look at each other, and answers how many parcels the lane has, in the
/// ring and in the spool. What was received, then what is in the ring, then what is in the spool, is what
/// was sent. Each end then knows all that is in the ring, and all the room there, so that `flush` and
/// `take` on this thread miss nothing.
pub fn meet(out: &mut Outlet, inlet: &mut Inlet) -> u32
    requires { out.old.lane ≡ inlet.old.lane }
    ensures out { out.new ≡ record out.old { free = out.new.free } }
    ensures inlet { inlet.new ≡ record inlet.old { known = inlet.new.known } }
    ensures met { (inlet.new.received ++ inlet.new.known) ++ out.new.spool ≡ out.new.sent }
    ensures known { IsPrefix inlet.old.known inlet.new.known }
    ensures count { result ≡ length inlet.new.known + length out.new.spool }
    ensures room { 64 ≤ out.new.free + length inlet.new.known }
{
    out.ring.slots_beside(&mut inlet.ring);
    let in_ring = inlet.ring.slots_beside(&mut out.ring);
    (in_ring + out.spool.len()) as u32
}

/// `meet`, then `flush`, then `meet`. Where the lane has a parcel, the next `take` gives one.
pub fn meet_and_flush(out: &mut Outlet, inlet: &mut Inlet) -> u32
    requires { out.old.lane ≡ inlet.old.lane }
    ensures lane { (out.new.lane ≡ out.old.lane) × (inlet.new.lane ≡ inlet.old.lane) }
    ensures same { (out.new.sent ≡ out.old.sent) × (inlet.new.received ≡ inlet.old.received) }
    ensures spare { out.old.spare ≤ out.new.spare }
    ensures met { (inlet.new.received ++ inlet.new.known) ++ out.new.spool ≡ out.new.sent }
    ensures known { IsPrefix inlet.old.known inlet.new.known }
    ensures count { result ≡ length inlet.new.known + length out.new.spool }
    ensures shown { 0 < result → 0 < length inlet.new.known }
{
    meet(out, inlet);
    out.flush();
    meet(out, inlet)
}
