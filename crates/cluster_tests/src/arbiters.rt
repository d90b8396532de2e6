//! Picks beside plain lists, and boxes that stay or retire.

use arbiter::{Arbiter, Chooser, Rotate, Script};
use std::test::Fail;

/// Picks the last of all, and tells nothing of it beforehand.
#[derive(Drop)]
struct Last;

impl Arbiter for Last {
    ghost use Rattle.arbiter.specs.declared.arbitration.Plan.TheVariants.{Unknown};

    ghost plan = { λ _. Unknown };

    fn pick(&mut self, n: u32) -> Option<u32> {
        Some(n - 1)
    }
}

/// The next number of a fixed sequence, below 2^31 (Knuth's MMIX constants).
fn random(state: &mut u64) -> u32 {
    *state = state
        .wrapping_mul(6_364_136_223_846_793_005)
        .wrapping_add(1_442_695_040_888_963_407);
    (*state >> 33) as u32
}

#[test]
fn rotations_and_scripts_pick_by_plain_lists(rt: HostRuntime) -> Result<(), Fail> {
    for seed in 1..6_u64 {
        let mut state = seed;
        let mut numbers = Vec::new(rt.alloc());
        for _ in 0..100_u32 {
            numbers.push(random(&mut state))?;
        }
        let mut script = Script::new(numbers.clone()?);
        let mut rotate = Rotate::new();
        let mut count = 0_u32;
        for number in &numbers {
            let n = random(&mut state) % 9 + 1;
            assert_eq!(rt;
                script.pick(n),
                Some(*number % n),
                "seed {seed}, pick {count}"
            );
            assert_eq!(rt;
                rotate.pick(n),
                Some(count % n),
                "seed {seed}, pick {count}"
            );
            count = count.saturating_add(1);
        }
        assert_eq!(rt; script.pick(5), None, "seed {seed}");
    }
    Ok(())
}

#[test]
fn a_box_that_retires_is_gone_and_the_rotation_goes_on(rt: HostRuntime) -> Result<(), Fail> {
    let script = Script::new(vec![in rt.alloc(); 5, 7]?);
    let mut chooser = Chooser::new(Some(Box::new(rt.alloc(), script)?));
    for (n, chosen, boxed) in [
        (3, 2, true),
        (4, 3, true),
        (3, 0, false),
        (3, 1, false),
        (3, 2, false),
        (2, 1, false),
    ] {
        assert_eq!(rt;
            (chooser.choose(n), chooser.boxed.is_some()),
            (chosen, boxed)
        );
    }
    Ok(())
}

#[test]
fn without_a_box_a_chooser_rotates_and_with_one_it_asks_it(rt: HostRuntime) -> Result<(), Fail> {
    let mut rotating = Chooser::new(None);
    let mut boxed = Chooser::new(Some(Box::new(rt.alloc(), Last)?));
    for (n, turn) in [(1, 0), (3, 1), (3, 2), (3, 0), (4, 0), (4, 1)] {
        assert_eq!(rt; rotating.choose(n), turn);
        assert_eq!(rt; boxed.choose(n), n - 1);
    }
    Ok(())
}
