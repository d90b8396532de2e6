//! Lanes whose parcels are numbered: random calls beside plain counts, more parcels than the ring has
//! room for, and an end on each of two threads.
ghost use Rattle.std.specs.Prelude.{◌≡◌, ◌<◌};

use dash_base::{LineId, OutOfMemory};
use dash_msg::{Msg, Parcel};
use mesh_lanes::{Inlet, Outlet, lane, meet, meet_and_flush};
use std::alloc::Global;
use std::test::Fail;
use std::thread::{join_mut, yield_now};

/// How often an end looks for a parcel before it gives up.
const TRIES: u32 = 100_000_000;

/// Both ends of one lane.
#[derive(Drop)]
struct Lane {
    out: Outlet,
    inlet: Inlet,
    ghost paired: { out.lane ≡ inlet.lane },
}

impl Lane {
    fn new(alloc: Global) -> Result<Lane, OutOfMemory> {
        let (out, inlet) = lane(alloc)?;
        Ok(Lane { out, inlet })
    }

    fn send(&mut self, number: u64) -> Result<(), OutOfMemory> {
        self.out.reserve(1)?;
        self.out.send(parcel(number));
        Ok(())
    }

    /// Sends the parcels 0 to `count`, less the last, once there is memory for all of them.
    fn send_reserved(&mut self, count: u32) -> Result<(), OutOfMemory> {
        send_reserved(&mut self.out, count)
    }

    fn flush(&mut self) {
        self.out.flush();
    }

    fn peek(&mut self) -> Option<Parcel> {
        self.inlet.peek()
    }

    fn take(&mut self) -> Option<Parcel> {
        self.inlet.take()
    }

    fn meet(&mut self) -> u32 {
        meet(&mut self.out, &mut self.inlet)
    }

    fn meet_and_flush(&mut self) -> u32 {
        meet_and_flush(&mut self.out, &mut self.inlet)
    }
}

/// The parcel of a number.
fn parcel(number: u64) -> Parcel {
    Parcel {
        msg: Msg::Nak { line: LineId(7) },
        stamp: number,
    }
}

fn send_reserved(out: &mut Outlet, count: u32) -> Result<(), OutOfMemory>
    ensures { out.new.lane ≡ out.old.lane }
{
    out.reserve(count)?;
    for number in 0..count {
        out.send(parcel(u64::from(number)));
    }
    Ok(())
}

/// The next number of a fixed sequence, below 2^31 (Knuth's MMIX constants).
fn random(state: &mut u64) -> u32 {
    *state = state
        .wrapping_mul(6_364_136_223_846_793_005)
        .wrapping_add(1_442_695_040_888_963_407);
    (*state >> 33) as u32
}

#[test]
fn random_calls_meet_plain_counts(rt: HostRuntime) -> Result<(), Fail> {
    for seed in 1..6_u64 {
        let mut state = seed;
        let mut lane = Lane::new(rt.alloc())?;
        // how many parcels were sent, how many of these the ring has had, and how many were taken
        let (mut sent, mut moved, mut taken) = (0_u64, 0_u64, 0_u64);
        for step in 0..2_000_u32 {
            match random(&mut state) % 16 {
                0..9 => {
                    lane.send(sent)?;
                    sent = sent.saturating_add(1);
                }
                9 => {
                    lane.flush();
                    moved = sent.min(taken.saturating_add(64));
                }
                10 => {
                    let held = lane.meet();
                    assert_eq!(rt;
                        u64::from(held),
                        sent - taken.min(sent),
                        "seed {seed}, step {step}"
                    );
                }
                _ => {
                    let next = if taken < moved {
                        Some(parcel(taken))
                    } else {
                        None
                    };
                    assert_eq!(rt; lane.peek(), next, "seed {seed}, step {step}");
                    assert_eq!(rt; lane.take(), next, "seed {seed}, step {step}");
                    taken = moved.min(taken.saturating_add(1));
                }
            }
        }
        assert!(rt; 64 < sent);
    }
    Ok(())
}

#[test]
fn seventy_parcels_go_through_in_two_parts(rt: HostRuntime) -> Result<(), Fail> {
    let mut lane = Lane::new(rt.alloc())?;
    lane.send_reserved(70)?;
    for (range, held) in [(0..64_u64, 70), (64..70, 6)] {
        assert_eq!(rt; lane.meet(), held);
        lane.flush();
        for number in range {
            assert_eq!(rt; lane.take(), Some(parcel(number)));
        }
        assert_eq!(rt; lane.take(), None);
    }
    assert_eq!(rt; lane.meet(), 0);
    Ok(())
}

#[test]
fn what_meets_and_flushes_shows_the_next_parcel(rt: HostRuntime) -> Result<(), Fail> {
    let mut lane = Lane::new(rt.alloc())?;
    assert_eq!(rt; lane.meet_and_flush(), 0);
    lane.send_reserved(70)?;
    for number in 0..70_u64 {
        assert_eq!(rt; u64::from(lane.meet_and_flush()), 70 - number);
        assert_eq!(rt; lane.peek(), Some(parcel(number)));
        assert_eq!(rt; lane.take(), Some(parcel(number)));
    }
    assert_eq!(rt; lane.meet_and_flush(), 0);
    assert_eq!(rt; lane.peek(), None);
    Ok(())
}

/// Sends the parcels 0 to `count`, less the last, each into the ring.
fn send_each(out: &mut Outlet, count: u64) -> Result<(), OutOfMemory> {
    for number in 0..count {
        out.reserve(1)?;
        out.send(parcel(number));
        out.flush();
    }
    Ok(())
}

/// Takes the parcels 0 to `count`, less the last, and answers how many came in order. Where `peeks`
/// is set it takes only what it has peeked at.
fn take_each(inlet: &mut Inlet, count: u64, peeks: bool) -> u64 {
    let mut next = 0;
    for _ in 0..TRIES {
        if next == count {
            break;
        }
        let shown = if peeks { inlet.peek() } else { None };
        if peeks && shown.is_none() {
            yield_now();
            continue;
        }
        match inlet.take() {
            Some(p) if p == parcel(next) && (!peeks || shown == Some(p)) => next =
                next.saturating_add(1),
            Some(_) => break,
            None => yield_now(),
        }
    }
    next
}

#[test]
fn ten_parcels_pass_between_threads(rt: HostRuntime) -> Result<(), Fail> {
    for peeks in [false, true] {
        let Lane { mut out, mut inlet } = Lane::new(rt.alloc())?;
        let (sent, taken) = join_mut(
            &rt,
            &mut || send_each(&mut out, 10),
            &mut || take_each(&mut inlet, 10, peeks),
        );
        assert_eq!(rt; (sent, taken), (Ok(()), 10), "with peek: {peeks}");
    }
    Ok(())
}
