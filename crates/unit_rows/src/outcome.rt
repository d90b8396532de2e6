//! What an atomic operation does.

use dash_base::Line;

/// What an atomic operation does.
#[derive(Clone, Copy, Debug, PartialEq, Eq)]
pub enum Outcome {
    /// It fails, as an SC whose word is not reserved.
    Fails,
    /// It writes to its line, of which its cluster has this copy.
    Writes(Line),
}
