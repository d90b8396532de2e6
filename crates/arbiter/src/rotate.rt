//! The arbiter that takes turns.
ghost use Rattle.std.specs.Prelude.{◌≡◌, ◌+◌, ◌%◌, ◌^◌, ◌<◌, Some, IfSome};
ghost use Rattle.arbiter.specs.Picks.{Follows};

use crate::arbitration::Arbiter;
use std::marker::Model;

/// Picks 0, 1, 2 and so on, each divided by how many there are to choose from, the rest of which is
/// picked. It never retires. Contracts see how often it has picked, modulo 2^64.
#[derive(Drop)]
pub struct Rotate {
    count: u64,
}

impl Model for Rotate {
    ghost use Rattle.std.specs.Prelude.{ℕ};

    ghost Value = { ℕ };

    ghost view = { λ r. r.count };
}

impl Rotate {
    /// A rotation that has not picked yet.
    pub fn new() -> Rotate
        ensures { result ≡ 0 }
    {
        Rotate { count: 0 }
    }

    /// The next pick of `n` things.
    pub fn next(&mut self, n: u32) -> u32
        requires { 0 < n }
        ensures picked { result ≡ self.old % n }
        ensures count { self.new ≡ (self.old + 1) % 2 ^ 64 }
    {
        let picked = self.count % u64::from(n);
        self.count = self.count.wrapping_add(1);
        picked as u32
    }
}

impl Arbiter for Rotate {
    ghost use Rattle.arbiter.specs.declared.arbitration.Plan.TheVariants.{At};

    ghost plan = { λ count. At count };

    fn pick(&mut self, n: u32) -> Option<u32>
        requires { 0 < n }
        ensures below { IfSome result (λ i. i < n) }
        ensures picked { result ≡ Some (self.old % n) }
        ensures count { self.new ≡ (self.old + 1) % 2 ^ 64 }
    {
        Some(self.next(n))
    }
}
