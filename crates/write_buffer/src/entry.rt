//! Stores that wait, and what a load is told of them.

use dash_base::{Mask, WordAddr};

/// A store that waits to be committed.
#[derive(Clone, Copy, Debug, PartialEq, Eq)]
pub struct Entry {
    /// The number of the instruction in its hart, from 1.
    pub number: u32,
    pub word: WordAddr,
    /// The bytes that it writes.
    pub mask: Mask,
    /// Those bytes, in their places in the word.
    pub value: u32,
}

/// What a load finds.
#[derive(Clone, Copy, Debug, PartialEq, Eq)]
pub enum Look {
    /// No store to the word waits.
    None,
    /// The newest store to the word writes every byte that the load reads.
    Hit { value: u32, number: u32 },
    /// It does not, so the load has to wait until that store is committed.
    Wait,
}
