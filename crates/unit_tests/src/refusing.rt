//! Requests that are refused and sent again.

use crate::programs::{F_HIGH, F_LOW, LOAD_BEFORE_F, LOAD_NEXT, ONE, STORE_NEXT, X};
use crate::script::{Script, loaded};
use dash_base::{ClusterId, LineId};
use dash_event::Seen;
use dash_msg::Class::{Reply, Request};
use std::test::Fail;
use unit_rows::Choice::{Again, Ask, Commit, Evict, Install, Step, Take};

const HOME: ClusterId = ClusterId(0);

const OWNER: ClusterId = ClusterId(1);

const READER: ClusterId = ClusterId(2);

/// The line after X's. Its home among three clusters is the cluster 0.
const LINE: LineId = LineId(2049);

/// A read is forwarded to an owner that has given the line up: the owner refuses it, the home takes the
/// line back, and the read that is sent again is served there.
#[test]
fn a_read_whose_owner_is_gone_is_sent_again(rt: HostRuntime) -> Result<(), Fail> {
    let owner = [X, F_HIGH, F_LOW, ONE, STORE_NEXT, LOAD_BEFORE_F];
    let reader = [X, LOAD_NEXT];
    let mut script = Script::new(&rt, rt.alloc(), 3, 1, [&[], &owner, &reader, &[]])?;
    script.steps(&rt, 1, 5)?;
    script.steps(&rt, 2, 1)?;
    script.play(
        &rt,
        &[
            (1, Ask(1)),
            (0, Take(OWNER, Request)),
            (1, Take(HOME, Reply)),
            (1, Install(1)),
            (1, Commit(0)),
            (2, Ask(0)),
            (0, Take(READER, Request)),
        ],
    )?;
    // The owner wants another line with the same index, of which it is itself the home.
    script.play(
        &rt,
        &[
            (1, Ask(0)),
            (1, Take(OWNER, Request)),
            (1, Take(OWNER, Reply)),
            (1, Evict(0, LINE)),
            (1, Take(HOME, Request)),
            (0, Take(OWNER, Request)),
            (2, Take(OWNER, Reply)),
        ],
    )?;
    script.idle(&rt, 2, Install(0))?;
    script.play(
        &rt,
        &[
            (2, Again(0)),
            (0, Take(READER, Request)),
            (2, Take(HOME, Reply)),
            (2, Install(0)),
            (2, Step(0)),
        ],
    )?;
    assert_eq!(rt;
        script.last(&rt, 2)?,
        loaded(2, 6, 0x8010, 1, Seen::Line(1), 2)
    );
    Ok(())
}
