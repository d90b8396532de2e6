//! Whether a turn did something.

/// What a turn did.
#[derive(Clone, Copy, Debug, PartialEq, Eq)]
pub enum Turn {
    /// One event.
    Did,
    /// Nothing.
    Idle,
}
