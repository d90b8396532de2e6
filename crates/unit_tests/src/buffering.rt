//! Stores that wait in their hart's buffer.

use crate::programs::{FORTY_TWO, LOAD_X, STORE_BYTE_X, STORE_X, X};
use crate::script::{Script, loaded};
use dash_base::ClusterId;
use dash_event::Seen;
use dash_msg::Class::{Reply, Request};
use std::test::Fail;
use unit_rows::Choice::{Ask, Commit, Install, Step, Take};

const HOME: ClusterId = ClusterId(0);

#[test]
fn a_load_sees_its_harts_own_store_at_once(rt: HostRuntime) -> Result<(), Fail> {
    let program = [X, FORTY_TWO, STORE_X, LOAD_X];
    let mut script = Script::new(&rt, rt.alloc(), 1, 1, [&program, &[], &[], &[]])?;
    script.play(
        &rt,
        &[(0, Step(0)), (0, Step(0)), (0, Step(0)), (0, Step(0))],
    )?;
    assert_eq!(rt;
        script.last(&rt, 0)?,
        loaded(0, 8, 0x8000, 42, Seen::Own(7), 0)
    );
    Ok(())
}

#[test]
fn a_load_waits_for_a_store_of_a_part_of_its_word(rt: HostRuntime) -> Result<(), Fail> {
    let program = [X, FORTY_TWO, STORE_BYTE_X, LOAD_X];
    let mut script = Script::new(&rt, rt.alloc(), 1, 1, [&program, &[], &[], &[]])?;
    script.play(&rt, &[(0, Step(0)), (0, Step(0)), (0, Step(0))])?;
    script.idle(&rt, 0, Step(0))?;
    // The store slot of the hart asks to own the line; its home, the same cluster, has it to give.
    script.play(
        &rt,
        &[
            (0, Ask(1)),
            (0, Take(HOME, Request)),
            (0, Take(HOME, Reply)),
            (0, Install(1)),
            (0, Commit(0)),
            (0, Step(0)),
        ],
    )?;
    assert_eq!(rt;
        script.last(&rt, 0)?,
        loaded(0, 8, 0x8000, 42, Seen::Line(1), 2)
    );
    Ok(())
}
