//! What an arbiter is.
ghost use Rattle.std.specs.Prelude.{◌<◌, IfSome};
ghost use Rattle.arbiter.specs.Picks.{Follows};

/// What can be told of an arbiter's next pick. Contracts alone speak of it, and no value is made.
#[derive(Clone, Copy, Debug, PartialEq, Eq)]
pub enum Plan {
    /// Nothing is told.
    Unknown,
    /// It answers `None`.
    Retire,
    /// It picks this number, or what is left of it divided by how many there are to choose from.
    At(u64),
}

/// Chooses one of several things, again and again.
pub trait Arbiter: Drop {
    ghost use Rattle.arbiter.specs.declared.arbitration.Plan.{Plan};

    /// What is told of the next pick.
    ghost plan: { Self → Plan };

    /// One of the numbers below `n`. `None` means that this arbiter retires: it is not asked again.
    fn pick(&mut self, n: u32) -> Option<u32>
        requires { 0 < n }
        ensures below { IfSome result (λ i. i < n) }
        ensures planned { Follows (plan self.old) n result };
}
