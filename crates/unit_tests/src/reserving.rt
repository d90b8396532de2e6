//! Reservations, and who loses them.

use crate::programs::{ONE, RESERVE_X, STORE_RESERVED_X, X};
use crate::script::Script;
use dash_base::ClusterId;
use dash_event::Kind;
use dash_msg::Class::{Reply, Request};
use std::test::Fail;
use unit_rows::Choice::{Ask, Install, Step, Take};

const HOME: ClusterId = ClusterId(0);

const OTHER: ClusterId = ClusterId(1);

/// Two harts reserve one word. The first to own its line stores; the other loses its reservation with
/// its copy, and fails.
#[test]
fn one_of_two_reservations_succeeds(rt: HostRuntime) -> Result<(), Fail> {
    let program = [X, ONE, RESERVE_X, STORE_RESERVED_X];
    let mut script = Script::new(&rt, rt.alloc(), 2, 1, [&program, &program, &[], &[]])?;
    script.steps(&rt, 0, 2)?;
    script.steps(&rt, 1, 2)?;
    script.play(
        &rt,
        &[
            (0, Ask(0)),
            (0, Take(HOME, Request)),
            (0, Take(HOME, Reply)),
            (0, Install(0)),
            (0, Step(0)),
            (1, Ask(0)),
            (0, Take(OTHER, Request)),
            (1, Take(HOME, Reply)),
            (1, Install(0)),
            (1, Step(0)),
        ],
    )?;
    script.play(
        &rt,
        &[
            (0, Ask(0)),
            (0, Take(HOME, Request)),
            (1, Take(HOME, Request)),
            (1, Step(0)),
        ],
    )?;
    assert!(rt; matches!(script.last(&rt, 1)?, Kind::ScFail { .. }));
    assert_eq!(rt; script.register(&rt, 1, 29)?, 1);
    script.play(&rt, &[(0, Take(HOME, Reply)), (0, Install(0))])?;
    script.idle(&rt, 0, Step(0))?;
    script.play(&rt, &[(0, Take(OTHER, Reply)), (0, Step(0))])?;
    assert!(rt; matches!(script.last(&rt, 0)?, Kind::Rmw { version: 1, .. }));
    assert_eq!(rt; script.register(&rt, 0, 29)?, 0);
    Ok(())
}
