//! Prefetches, which are hints: they change no register and never trap.

use dash_base::HintKind;

/// A prefetch at the address `rs1` + `offset`. The offset is a multiple of 32, in bytes.
#[derive(Clone, Copy, Debug, PartialEq, Eq)]
pub struct Hint {
    pub kind: HintKind,
    pub rs1: u32,
    pub offset: i32,
}
