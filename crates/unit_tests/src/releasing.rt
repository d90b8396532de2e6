//! Releases and acquires under delays: whatever is held back, none sees the new flag and the old word.

use crate::programs::{
    ACQUIRE_F, ACQUIRE_G, F_HIGH, F_LOW, G, LOAD_X, LOAD_Y, ONE, RELEASE_F, RELEASE_G,
    SKIP_UNLESS_ONE, STORE_X, X,
};
use crate::script::Script;
use dash_base::{ClusterId, HartId, WordAddr};
use dash_msg::Class::{Reply, Request};
use std::test::Fail;
use unit_rows::Choice::{Ask, Install, Step, Take};

const HOME: ClusterId = ClusterId(0);

const OTHER: ClusterId = ClusterId(1);

const WORD: WordAddr = WordAddr(0x8000);

const FLAG: WordAddr = WordAddr(0x9020);

const OTHER_FLAG: WordAddr = WordAddr(0x9010);

/// Hart 0 stores to X and then releases F; hart 1, whose cluster shares X's line, acquires F and loads X
/// only where F was 1. Cluster 1 takes the message that takes its copy away only after so many other
/// events, or as many as there can be.
#[test]
fn who_sees_the_release_sees_the_store(rt: HostRuntime) -> Result<(), Fail> {
    let writer = [X, F_HIGH, F_LOW, ONE, STORE_X, RELEASE_F];
    let reader = [
        X,
        F_HIGH,
        F_LOW,
        ONE,
        LOAD_Y,
        ACQUIRE_F,
        SKIP_UNLESS_ONE,
        LOAD_X,
    ];
    let mut seen = false;
    for script_number in 0..6 {
        for reads_late in [false, true] {
            let mut script = Script::new(&rt, rt.alloc(), 2, 1, [&writer, &reader, &[], &[]])?;
            script.steps(&rt, 1, 4)?;
            script.play(
                &rt,
                &[
                    (1, Ask(0)),
                    (0, Take(OTHER, Request)),
                    (1, Take(HOME, Reply)),
                    (1, Install(0)),
                    (1, Step(0)),
                ],
            )?;
            let order = if reads_late { [0, 1] } else { [1, 0] };
            script.run(
                &rt,
                rt.alloc(),
                order,
                (1, Take(HOME, Request)),
                script_number,
            )?;
            let flag = script.first_read(1, HartId(1), FLAG);
            let word = script.first_read(1, HartId(1), WORD);
            assert!(rt; !(flag == Some(1) && word == Some(0)));
            if flag == Some(1) {
                assert_eq!(rt; word, Some(1));
                seen = true;
            }
        }
    }
    assert!(rt; seen);
    Ok(())
}

/// Harts 0 and 2 release two words; harts 1 and 3 acquire them in opposite orders. They never see the
/// two releases in two orders.
#[test]
fn two_releases_are_seen_in_one_order(rt: HostRuntime) -> Result<(), Fail> {
    let first = [F_HIGH, F_LOW, G, ONE, RELEASE_F];
    let second = [F_HIGH, F_LOW, G, ONE, RELEASE_G];
    let reader = [F_HIGH, F_LOW, G, ACQUIRE_F, ACQUIRE_G];
    let other_reader = [F_HIGH, F_LOW, G, ACQUIRE_G, ACQUIRE_F];
    let programs = [&first[..], &reader[..], &second[..], &other_reader[..]];
    for delay in 0..3 {
        for order in [[0, 1], [1, 0]] {
            let mut script = Script::new(&rt, rt.alloc(), 2, 2, programs)?;
            let held = if order[0] == 0 {
                (1, Take(HOME, Request))
            } else {
                (0, Take(OTHER, Request))
            };
            script.run(&rt, rt.alloc(), order, held, 2 * delay)?;
            let one = script.first_read(0, HartId(1), FLAG);
            let two = script.first_read(0, HartId(1), OTHER_FLAG);
            let three = script.first_read(1, HartId(3), OTHER_FLAG);
            let four = script.first_read(1, HartId(3), FLAG);
            assert!(rt; one.is_some() && two.is_some() && three.is_some() && four.is_some());
            let forward = one == Some(1) && two == Some(0);
            let backward = three == Some(1) && four == Some(0);
            assert!(rt; !(forward && backward));
        }
    }
    Ok(())
}
