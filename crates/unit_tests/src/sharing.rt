//! Lines that several clusters hold, and what their harts see while an epoch is open.

use crate::programs::{F_HIGH, F_LOW, LOAD_F, LOAD_X, ONE, STORE_F, STORE_X, X};
use crate::script::{Script, loaded};
use dash_base::ClusterId;
use dash_event::Seen;
use dash_msg::Class::{Reply, Request};
use std::test::Fail;
use unit_rows::Choice::{Again, Ask, Commit, Install, Step, Take};

const HOME: ClusterId = ClusterId(0);

const OTHER: ClusterId = ClusterId(1);

/// Hart 1 sees the second of two stores of hart 0 and, after it, what was before the first: the message
/// that takes its copy of X away still stands in its lane. The program has a race.
#[test]
fn stores_are_seen_out_of_order(rt: HostRuntime) -> Result<(), Fail> {
    let writer = [X, F_HIGH, F_LOW, ONE, STORE_X, STORE_F];
    let reader = [X, F_HIGH, F_LOW, LOAD_X, LOAD_F, LOAD_X];
    let mut script = Script::new(&rt, rt.alloc(), 2, 1, [&writer, &reader, &[], &[]])?;
    script.steps(&rt, 1, 3)?;
    script.play(
        &rt,
        &[
            (1, Ask(0)),
            (0, Take(OTHER, Request)),
            (1, Take(HOME, Reply)),
            (1, Install(0)),
            (1, Step(0)),
        ],
    )?;
    assert_eq!(rt;
        script.last(&rt, 1)?,
        loaded(1, 8, 0x8000, 0, Seen::Line(0), 2)
    );
    script.steps(&rt, 0, 6)?;
    // Hart 0 owns X's line at once and commits, while cluster 1 has not taken the Inval.
    script.play(
        &rt,
        &[
            (0, Ask(1)),
            (0, Take(HOME, Request)),
            (0, Take(HOME, Reply)),
            (0, Install(1)),
            (0, Commit(0)),
        ],
    )?;
    script.play(
        &rt,
        &[
            (0, Ask(1)),
            (0, Take(HOME, Request)),
            (0, Take(HOME, Reply)),
            (0, Install(1)),
            (0, Commit(0)),
        ],
    )?;
    // F's line comes from its owner, by its home.
    script.play(
        &rt,
        &[
            (1, Ask(0)),
            (0, Take(OTHER, Request)),
            (0, Take(HOME, Request)),
            (1, Take(HOME, Reply)),
            (1, Install(0)),
            (1, Step(0)),
        ],
    )?;
    assert_eq!(rt;
        script.last(&rt, 1)?,
        loaded(1, 9, 0x9020, 1, Seen::Line(1), 2)
    );
    script.perform(&rt, 1, Step(0))?;
    assert_eq!(rt;
        script.last(&rt, 1)?,
        loaded(1, 10, 0x8000, 0, Seen::Line(0), 1)
    );
    Ok(())
}

/// An invalidation that meets an outstanding read: it is acknowledged at once, and the data that comes
/// later is refused. The read is sent again, and served after the writer's commit.
#[test]
fn data_after_an_invalidation_is_refused(rt: HostRuntime) -> Result<(), Fail> {
    let writer = [X, ONE, STORE_X];
    let reader = [X, LOAD_X];
    let mut script = Script::new(&rt, rt.alloc(), 2, 1, [&writer, &reader, &[], &[]])?;
    script.steps(&rt, 0, 3)?;
    script.steps(&rt, 1, 1)?;
    script.play(
        &rt,
        &[
            (1, Ask(0)),
            (0, Take(OTHER, Request)),
            (0, Ask(1)),
            (0, Take(HOME, Request)),
            (1, Take(HOME, Request)),
            (1, Take(HOME, Reply)),
        ],
    )?;
    script.idle(&rt, 1, Install(0))?;
    script.play(
        &rt,
        &[
            (0, Take(HOME, Reply)),
            (0, Install(1)),
            (0, Commit(0)),
            (0, Take(OTHER, Reply)),
            (1, Again(0)),
            (0, Take(OTHER, Request)),
            (0, Take(HOME, Request)),
            (1, Take(HOME, Reply)),
            (1, Install(0)),
            (1, Step(0)),
        ],
    )?;
    assert_eq!(rt;
        script.last(&rt, 1)?,
        loaded(1, 6, 0x8000, 1, Seen::Line(1), 2)
    );
    Ok(())
}
