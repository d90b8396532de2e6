//! What a hart finds at its pc.

use dash_base::Instr;

/// What stands at an address.
#[derive(Clone, Copy, Debug, PartialEq, Eq)]
pub enum Found {
    /// Its four bytes are not all in one executable segment.
    NoWord,
    /// A word that is no instruction.
    NoInstr(u32),
    This(Instr),
}
