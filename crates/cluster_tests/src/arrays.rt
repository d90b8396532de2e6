//! Random calls against a plain program: a table with a place for each line.

use cache_array::Array;
use dash_base::{Line, LineId};
use std::test::Fail;

/// The copies of the lines below 48, by line.
#[derive(Drop)]
struct Plain {
    indexes: u32,
    copies: [Option<Line>; 48],
}

impl Plain {
    fn get(&self, line: u32) -> Option<Line> {
        self.copies[(line % 48) as usize]
    }

    fn put(&mut self, line: u32, copy: Option<Line>) {
        self.copies[(line % 48) as usize] = copy;
    }

    fn victim(&self, line: u32) -> Option<LineId> {
        let indexes = self.indexes.max(1);
        (0..48)
            .find(|&other| other != line
                && other % indexes == line % indexes
                && self.get(other).is_some())
            .map(LineId)
    }
}

/// The next number of a fixed sequence, below 2^31 (Knuth's MMIX constants).
fn random(state: &mut u64) -> u32 {
    *state = state
        .wrapping_mul(6_364_136_223_846_793_005)
        .wrapping_add(1_442_695_040_888_963_407);
    (*state >> 33) as u32
}

#[test]
fn random_calls_meet_a_table_by_line(rt: HostRuntime) -> Result<(), Fail> {
    for (seed, indexes) in [(1, 1_u32), (2, 4), (3, 5), (4, 16), (5, 64), (6, 16_384)] {
        let mut state = seed;
        let mut array = Array::new(rt.alloc(), indexes)?;
        let mut plain = Plain {
            indexes,
            copies: [None; 48],
        };
        for step in 0..400_u64 {
            let line = random(&mut state) % 48;
            assert_eq!(rt;
                array.get(LineId(line)),
                plain.get(line),
                "seed {seed}, step {step}"
            );
            assert_eq!(rt;
                array.victim(LineId(line)),
                plain.victim(line),
                "seed {seed}, step {step}"
            );
            let copy = Line {
                words: [random(&mut state), line, 0, 7],
                version: step,
            };
            match array.victim(LineId(line)) {
                Some(other) => {
                    array.clear(other);
                    plain.put(other.0, None);
                }
                None if random(&mut state) % 4 == 0 => {
                    array.clear(LineId(line));
                    plain.put(line, None);
                }
                None => {
                    array.set(LineId(line), copy);
                    plain.put(line, Some(copy));
                }
            }
        }
    }
    Ok(())
}
