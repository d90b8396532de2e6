//! Acknowledgements: a line is used before they are in, and a release waits for them.

use crate::programs::{
    ACQUIRE_F, F_HIGH, F_LOW, FIVE, LOAD_X, LOAD_Y, ONE, RELEASE_F, STORE_X, STORE_Y, X,
};
use crate::script::{Script, loaded};
use dash_base::{ClusterId, LineId};
use dash_event::{Kind, Seen};
use dash_msg::Class::{Reply, Request};
use std::test::Fail;
use unit_rows::Choice::{Ask, BusOwn, Commit, Install, Step, Take};

const HOME: ClusterId = ClusterId(0);

const OTHER: ClusterId = ClusterId(1);

/// X's line, and Y's.
const LINE: LineId = LineId(2048);

/// Two harts of one cluster store to a line whose acknowledgement is outstanding: it is owed to both, so
/// the release of the second waits for it too.
#[test]
fn a_release_waits_for_what_is_owed_to_its_hart(rt: HostRuntime) -> Result<(), Fail> {
    let first = [X, ONE, STORE_X];
    let second = [X, F_HIGH, F_LOW, FIVE, STORE_Y, ONE, RELEASE_F];
    let reader = [X, F_HIGH, F_LOW, LOAD_X, ACQUIRE_F, LOAD_Y];
    let mut script = Script::new(&rt, rt.alloc(), 2, 2, [&first, &second, &reader, &[]])?;
    script.steps(&rt, 1, 3)?;
    script.play(
        &rt,
        &[
            (1, Ask(0)),
            (0, Take(OTHER, Request)),
            (1, Take(HOME, Reply)),
            (1, Install(0)),
            (1, Step(0)),
        ],
    )?;
    script.steps(&rt, 0, 3)?;
    script.play(
        &rt,
        &[
            (0, Ask(2)),
            (0, Take(HOME, Request)),
            (0, Take(HOME, Reply)),
            (0, Install(2)),
            (0, Commit(0)),
        ],
    )?;
    // The second hart takes the line over in its cluster, while the reader still holds the old one.
    script.play(
        &rt,
        &[
            (0, Step(1)),
            (0, Step(1)),
            (0, Step(1)),
            (0, Step(1)),
            (0, Step(1)),
            (0, BusOwn(1, LINE)),
            (0, Commit(1)),
            (0, Step(1)),
            (0, Ask(1)),
            (0, Take(HOME, Request)),
            (0, Take(HOME, Reply)),
            (0, Install(1)),
        ],
    )?;
    script.idle(&rt, 0, Step(1))?;
    script.perform(&rt, 1, Take(HOME, Request))?;
    script.idle(&rt, 0, Step(1))?;
    script.play(&rt, &[(0, Take(OTHER, Reply)), (0, Step(1))])?;
    assert!(rt; matches!(script.last(&rt, 0)?, Kind::Rmw { version: 1, .. }));
    script.play(
        &rt,
        &[
            (1, Ask(0)),
            (0, Take(OTHER, Request)),
            (0, Take(HOME, Request)),
            (1, Take(HOME, Reply)),
            (1, Install(0)),
            (1, Step(0)),
        ],
    )?;
    assert_eq!(rt; script.last_read(&rt, 1)?, Some(1));
    script.play(
        &rt,
        &[
            (1, Ask(0)),
            (0, Take(OTHER, Request)),
            // What F's owner told F's home stands before the read of Y in that lane.
            (0, Take(HOME, Request)),
            (0, Take(HOME, Request)),
            (1, Take(HOME, Reply)),
            (1, Install(0)),
            (1, Step(0)),
        ],
    )?;
    assert_eq!(rt;
        script.last(&rt, 1)?,
        loaded(2, 10, 0x8004, 5, Seen::Line(2), 2)
    );
    Ok(())
}
