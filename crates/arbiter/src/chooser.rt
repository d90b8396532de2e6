//! Choosing by a box, and without one.
ghost use Rattle.std.specs.Prelude.{◌≡◌, ◌+◌, ◌%◌, ◌^◌, ◌<◌, Some, None, IfSome, IfNone};
ghost use Rattle.arbiter.specs.Picks.{Follows};

use crate::arbitration::Arbiter;
use crate::rotate::Rotate;

/// Chooses by a box, and in rotation where there is none. A box that retires is dropped.
#[derive(Drop)]
pub struct Chooser {
    pub boxed: Option<Box<dyn Arbiter + Send>>,
    pub rotate: Rotate,
}

impl Chooser {
    /// Chooses by this box, or in rotation from 0 where there is none.
    pub fn new(boxed: Option<Box<dyn Arbiter + Send>>) -> Chooser
        ensures boxed { result.boxed ≡ boxed }
        ensures rotate { result.rotate ≡ 0 }
    {
        Chooser {
            boxed,
            rotate: Rotate::new(),
        }
    }

    /// One of `n` things, by its number. Where the box retires it is number 0, and the rotation goes on
    /// as after its first pick.
    pub fn choose(&mut self, n: u32) -> u32
        requires { 0 < n }
        ensures below { result < n }
        ensures rotates { IfNone self.old.boxed ((result ≡ self.old.rotate % n) × (self.new.rotate ≡ (self.old.rotate + 1) % 2 ^ 64) × (self.new.boxed ≡ None)) }
        ensures picks { IfSome self.old.boxed (λ b. IfSome self.new.boxed (λ _. Follows (plan b) n (Some result) × (self.new.rotate ≡ self.old.rotate))) }
        ensures retires { IfSome self.old.boxed (λ b. IfNone self.new.boxed (Follows (plan b) n None × (result ≡ 0) × (self.new.rotate ≡ 1))) }
    {
        let Some(mut arbiter) = self.boxed.take() else {
            return self.rotate.next(n);
        };
        let Some(choice) = arbiter.pick(n) else {
            self.rotate = Rotate::new();
            return self.rotate.next(n);
        };
        self.boxed = Some(arbiter);
        choice
    }
}
