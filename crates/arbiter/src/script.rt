//! The arbiter that goes by a list.
ghost use Rattle.std.specs.Prelude.{◌≡◌, ◌%◌, ◌<◌, drop, option_map, slice_get, IfSome};
ghost use Rattle.arbiter.specs.Picks.{Follows};

use crate::arbitration::Arbiter;
use std::marker::Model;

/// Picks the numbers of a list in order, each divided by how many there are to choose from, the rest of
/// which is picked. Once they are used up it retires. Contracts see the numbers that are left.
#[derive(Drop)]
pub struct Script {
    numbers: Vec<u32>,
    used: usize,
}

impl Model for Script {
    ghost use Rattle.std.specs.Prelude.{ℕ, List, ◌≤◌, drop, vec_len};

    ghost Value = { List ℕ };

    ghost view = { λ s. drop s.used s.numbers.items };

    ghost invariant = { λ s. s.used ≤ vec_len s.numbers };
}

impl Script {
    /// The script of these numbers.
    pub fn new(numbers: Vec<u32>) -> Script
        ensures { result ≡ numbers.items }
    {
        Script { numbers, used: 0 }
    }
}

impl Arbiter for Script {
    ghost use Rattle.arbiter.specs.Picks.{plan_of_rest};

    ghost plan = { λ rest. plan_of_rest rest };

    fn pick(&mut self, n: u32) -> Option<u32>
        requires { 0 < n }
        ensures below { IfSome result (λ i. i < n) }
        ensures picked { result ≡ option_map (λ k. k % n) (slice_get self.old 0) }
        ensures rest { self.new ≡ drop 1 self.old }
    {
        let number = *self.numbers.get(self.used)?;
        self.used += 1;
        Some(number % n)
    }
}
