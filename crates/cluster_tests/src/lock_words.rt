//! The lock words of one home by hand, and random calls beside plain queues.

use dash_base::{ClusterId, HartId, OutOfMemory, TopoRefusal, Topology};
use queue_lock::{Locks, Waiter};
use std::alloc::Global;
use std::test::Fail;

/// What a call answered, or that its condition does not hold.
#[derive(Clone, Copy, Debug, PartialEq, Eq)]
enum Answer {
    Refused,
    Done,
    Granted(Waiter),
    Held(u32),
}

/// The waiter of a hart, whose instruction has the hart's number, and who asks for a value.
fn waiter(hart: u32, value: u32) -> Waiter {
    Waiter {
        hart: HartId(hart),
        number: hart,
        value,
    }
}

fn ask(locks: &mut Locks, i: u32, waiter: Waiter) -> Answer {
    if locks.is_own(i) && locks.has_room() {
        locks.ask(i, waiter);
        Answer::Done
    } else {
        Answer::Refused
    }
}

fn grant(locks: &mut Locks, i: u32) -> Answer {
    if locks.is_own(i) && locks.ready(i) {
        Answer::Granted(locks.grant(i))
    } else {
        Answer::Refused
    }
}

fn free(locks: &mut Locks, i: u32) -> Answer {
    if locks.is_own(i) {
        Answer::Held(locks.free(i))
    } else {
        Answer::Refused
    }
}

/// What a word holds, how often it was granted or freed, and whether it is ready.
fn seen(locks: &Locks, i: u32) -> Option<(u32, u64, bool)> {
    if locks.is_own(i) {
        Some((locks.value(i), locks.served(i), locks.ready(i)))
    } else {
        None
    }
}

/// A machine of so many clusters and harts in each, with `locks` lock words if that is up to 64.
fn topology(clusters: u32, harts: u32, locks: u32) -> Result<Topology, TopoRefusal> {
    let simple = Topology::simple(clusters, harts, 1)?;
    Ok(Topology {
        clusters: simple.clusters,
        harts: simple.harts,
        budget: simple.budget,
        memory: simple.memory,
        locks: locks.min(64),
        base: 0,
        l2: simple.l2,
        l1: simple.l1,
        buffer: simple.buffer,
        acks: simple.acks,
        prefetch: simple.prefetch,
        stack: simple.stack,
    })
}

/// The lock words of a cluster at the start, or of cluster 0 where there is no such cluster.
fn opening(alloc: Global, topology: &Topology, cluster: u32) -> Result<Locks, OutOfMemory> {
    let known = if cluster < topology.clusters {
        cluster
    } else {
        0
    };
    Locks::new(alloc, topology, ClusterId(known))
}

#[test]
fn a_word_goes_round_in_the_order_of_asking(rt: HostRuntime) -> Result<(), Fail> {
    let mut locks = opening(rt.alloc(), &topology(3, 1, 8)?, 1)?;
    let (first, second, third) = (waiter(2, 7), waiter(0, 8), waiter(1, 9));
    assert_eq!(rt; seen(&locks, 4), Some((0, 0, false)));
    for asked in [first, second, third] {
        assert_eq!(rt; ask(&mut locks, 4, asked), Answer::Done);
    }
    assert_eq!(rt; ask(&mut locks, 7, first), Answer::Refused);
    assert_eq!(rt; locks.waiting(), 3);
    for (asked, left) in [(first, 2), (second, 1), (third, 0)] {
        assert_eq!(rt; grant(&mut locks, 4), Answer::Granted(asked));
        assert_eq!(rt; grant(&mut locks, 4), Answer::Refused);
        assert_eq!(rt; locks.waiting(), left);
        assert_eq!(rt; free(&mut locks, 4), Answer::Held(asked.value));
    }
    assert_eq!(rt; seen(&locks, 4), Some((0, 6, false)));
    assert_eq!(rt; free(&mut locks, 4), Answer::Held(0));
    assert_eq!(rt; seen(&locks, 4), Some((0, 7, false)));
    assert_eq!(rt; seen(&locks, 1), Some((0, 0, false)));
    Ok(())
}

#[test]
fn a_freed_word_goes_to_who_asked_next(rt: HostRuntime) -> Result<(), Fail> {
    let mut locks = opening(rt.alloc(), &topology(4, 1, 8)?, 1)?;
    let (first, second) = (waiter(3, 7), waiter(1, 9));
    for asked in [first, second] {
        assert_eq!(rt; ask(&mut locks, 5, asked), Answer::Done);
    }
    assert_eq!(rt; seen(&locks, 5), Some((0, 0, true)));
    assert_eq!(rt; grant(&mut locks, 5), Answer::Granted(first));
    assert_eq!(rt; seen(&locks, 5), Some((7, 1, false)));
    assert_eq!(rt; free(&mut locks, 5), Answer::Held(7));
    assert_eq!(rt; seen(&locks, 5), Some((0, 2, true)));
    assert_eq!(rt; grant(&mut locks, 5), Answer::Granted(second));
    assert_eq!(rt; seen(&locks, 5), Some((9, 3, false)));
    Ok(())
}

#[test]
fn each_home_has_its_words(rt: HostRuntime) -> Result<(), Fail> {
    for (clusters, words, cluster, own) in [
        (1_u32, 3_u32, 0_u32, 0b111_u32),
        (3, 8, 0, 0b0100_1001),
        (3, 8, 1, 0b1001_0010),
        (3, 8, 2, 0b0010_0100),
        (4, 2, 3, 0),
        (4, 0, 0, 0),
    ] {
        let locks = opening(rt.alloc(), &topology(clusters, 1, words)?, cluster)?;
        for i in 0..16 {
            let has = (own >> i) % 2 == 1;
            assert_eq!(rt;
                locks.is_own(i),
                has,
                "word {i} of {words}, cluster {cluster}"
            );
            assert_eq!(rt; seen(&locks, i).is_some(), has);
        }
        locks.keeps_its_words();
    }
    Ok(())
}

/// The next number of a fixed sequence, below 2^31 (Knuth's MMIX constants).
fn random(state: &mut u64) -> u32 {
    *state = state
        .wrapping_mul(6_364_136_223_846_793_005)
        .wrapping_add(1_442_695_040_888_963_407);
    (*state >> 33) as u32
}

/// The first waiter in a list of those that wait for any word, with its place.
fn first_of(plain: &[(u32, Waiter)], i: u32) -> Option<(usize, Waiter)> {
    for (place, (word, waiter)) in plain.iter().enumerate() {
        if *word == i {
            return Some((place, *waiter));
        }
    }
    None
}

#[test]
fn random_calls_meet_one_list_of_all_who_wait(rt: HostRuntime) -> Result<(), Fail> {
    for (seed, clusters, harts) in [(1_u64, 1_u32, 1_u32), (2, 2, 2), (3, 1, 4)] {
        let mut locks = opening(rt.alloc(), &topology(clusters, harts, 6)?, 0)?;
        let mut plain: Vec<(u32, Waiter)> = Vec::new(rt.alloc());
        let mut values = [0_u32; 8];
        let mut served = [0_u64; 8];
        let mut state = seed;
        for step in 1..600_u32 {
            let i = random(&mut state) % 8;
            let own = i < 6 && (clusters == 1 || i % 2 == 0);
            let at = i as usize;
            let answer = match random(&mut state) % 3 {
                0 => {
                    let asked = waiter(random(&mut state) % 4, step);
                    let fits = own && plain.len() < 8 && plain.len() as u32 != clusters * harts;
                    if fits {
                        plain.push((i, asked))?;
                    }
                    let wanted = if fits { Answer::Done } else { Answer::Refused };
                    (ask(&mut locks, i, asked), wanted)
                }
                1 => match first_of(&plain, i) {
                    Some((place, first)) if values[at] == 0 && place < plain.len() => {
                        plain.remove(place);
                        values[at] = first.value;
                        served[at] = served[at].wrapping_add(1);
                        (grant(&mut locks, i), Answer::Granted(first))
                    }
                    _ => (grant(&mut locks, i), Answer::Refused),
                },
                _ if own => {
                    let held = values[at];
                    values[at] = 0;
                    served[at] = served[at].wrapping_add(1);
                    (free(&mut locks, i), Answer::Held(held))
                }
                _ => (free(&mut locks, i), Answer::Refused),
            };
            assert_eq!(rt; answer.0, answer.1, "seed {seed}, step {step}");
            let ready = own && values[at] == 0 && first_of(&plain, i).is_some();
            let wanted = if own {
                Some((values[at], served[at], ready))
            } else {
                None
            };
            assert_eq!(rt; seen(&locks, i), wanted, "seed {seed}, step {step}");
            assert_eq!(rt; locks.waiting() as usize, plain.len());
        }
    }
    Ok(())
}
