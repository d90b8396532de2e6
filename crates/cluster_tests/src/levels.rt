//! A worked example, and random calls against a plain program: two tables with a place for each
//! line.

use cache_levels::Levels;
use dash_base::{Line, LineId};
use std::test::Fail;

const ZEROS: Line = Line {
    words: [0; 4],
    version: 0,
};

/// The copies of the lines below 48, and whether L1 has them.
#[derive(Drop)]
struct Plain {
    l1: u32,
    l2: u32,
    copies: [Option<Line>; 48],
    in_l1: [bool; 48],
}

impl Plain {
    fn peek(&self, line: u32) -> Option<Line> {
        self.copies[(line % 48) as usize]
    }

    fn write(&mut self, line: u32, copy: Line) {
        self.copies[(line % 48) as usize] = Some(copy);
    }

    fn clear(&mut self, line: u32) {
        self.copies[(line % 48) as usize] = None;
        self.in_l1[(line % 48) as usize] = false;
    }

    fn victim(&self, line: u32) -> Option<LineId> {
        let l2 = self.l2.max(1);
        (0..48)
            .find(|&other| other != line && other % l2 == line % l2 && self.peek(other).is_some())
            .map(LineId)
    }

    fn read(&mut self, line: u32) -> Option<(Line, u32)> {
        let copy = self.peek(line)?;
        if self.in_l1[(line % 48) as usize] {
            return Some((copy, 1));
        }
        let l1 = self.l1.max(1);
        for other in 0..48_u32 {
            if other % l1 == line % l1 {
                self.in_l1[other as usize] = false;
            }
        }
        self.in_l1[(line % 48) as usize] = true;
        Some((copy, 2))
    }
}

/// The next number of a fixed sequence, below 2^31 (Knuth's MMIX constants).
fn random(state: &mut u64) -> u32 {
    *state = state
        .wrapping_mul(6_364_136_223_846_793_005)
        .wrapping_add(1_442_695_040_888_963_407);
    (*state >> 33) as u32
}

#[test]
fn an_l1_of_one_line_keeps_the_line_read_last(rt: HostRuntime) -> Result<(), Fail> {
    let mut levels = Levels::new(rt.alloc(), 1, 16)?;
    for line in [0, 1] {
        match levels.victim(LineId(line)) {
            None => levels.install(LineId(line), ZEROS),
            Some(other) => assert!(rt; false, "{other:?} stands at the index of line {line}"),
        }
    }
    for (line, level) in [(0, 2), (0, 1), (1, 2), (0, 2)] {
        assert_eq!(rt;
            levels.read(LineId(line)),
            Some((ZEROS, level)),
            "line {line}"
        );
    }
    assert_eq!(rt; levels.victim(LineId(16)), Some(LineId(0)));
    assert_eq!(rt; levels.victim(LineId(2)), None);
    Ok(())
}

/// One random call, made to the levels and to the tables where its conditions hold.
fn call(levels: &mut Levels, plain: &mut Plain, state: &mut u64, line: u32) {
    let copy = Line {
        words: [random(state), line, 0, 7],
        version: u64::from(random(state)),
    };
    match random(state) % 5 {
        0 => {
            levels.clear_line(LineId(line));
            plain.clear(line);
        }
        1 | 2 if levels.peek(LineId(line)).is_some() => {
            levels.write_owned(LineId(line), copy);
            plain.write(line, copy);
        }
        _ => match levels.victim(LineId(line)) {
            Some(other) => {
                levels.clear_line(other);
                plain.clear(other.0);
            }
            None => {
                levels.install(LineId(line), copy);
                plain.write(line, copy);
            }
        },
    }
}

#[test]
fn random_calls_meet_tables_by_line(rt: HostRuntime) -> Result<(), Fail> {
    for (seed, l1, l2) in [
        (1, 1_u32, 1_u32),
        (2, 1, 4),
        (3, 4, 16),
        (4, 8, 8),
        (5, 16, 64),
    ] {
        let mut state = seed;
        let mut levels = Levels::new(rt.alloc(), l1, l2)?;
        let mut plain = Plain {
            l1,
            l2,
            copies: [None; 48],
            in_l1: [false; 48],
        };
        for step in 0..600_u32 {
            let line = random(&mut state) % 48;
            call(&mut levels, &mut plain, &mut state, line);
            let line = random(&mut state) % 48;
            assert_eq!(rt;
                levels.peek(LineId(line)),
                plain.peek(line),
                "seed {seed}, step {step}"
            );
            assert_eq!(rt;
                levels.victim(LineId(line)),
                plain.victim(line),
                "seed {seed}, step {step}"
            );
            assert_eq!(rt;
                levels.read(LineId(line)),
                plain.read(line),
                "seed {seed}, step {step}"
            );
        }
    }
    Ok(())
}
