//! What a hart needs a line for.

/// What a hart needs a line for.
#[derive(Clone, Copy)]
pub enum Cause {
    /// Its oldest store.
    Store,
    /// Its instruction.
    Instruction,
}
