//! An access of a hart to a word of memory, or to a lock word.

use dash_base::{HartId, Labels, Mask, WordAddr};

/// What an access does.
#[derive(Clone, Copy, Debug, PartialEq, Eq)]
pub enum Op {
    Load,
    Store,
    /// LR.
    Reserve,
    /// SC, whether it succeeds or fails.
    Cond,
    /// An atomic read-modify-write of memory.
    Amo,
    /// A lock word is taken.
    Ask,
    /// A lock word is given back.
    Unlock,
}

/// Which content of the word an access was shown.
#[derive(Clone, Copy, Debug, PartialEq, Eq)]
pub enum Seen {
    /// The word's line after so many commits.
    Line(u64),
    /// The hart's own store of this number, which was not yet committed.
    Own(u32),
    /// The lock word after so many accesses.
    Lock(u64),
    /// Not told.
    Nothing,
}

/// An access. Loads and reserves have `read`, stores and a Cond that succeeds have `written`, an Amo,
/// an Ask and an Unlock have both, and a Cond that fails has neither.
#[derive(Clone, Copy, Debug, PartialEq, Eq)]
pub struct Access {
    pub hart: HartId,
    /// The number of the instruction in its hart, from 1.
    pub number: u32,
    pub op: Op,
    pub labels: Labels,
    pub word: WordAddr,
    /// The bytes that are meant: all four, unless it loads or stores a byte or a half.
    pub mask: Mask,
    /// The bytes that were read, in their places in the word, with zeros outside the mask.
    pub read: Option<u32>,
    /// The bytes that were written, likewise.
    pub written: Option<u32>,
    pub seen: Seen,
}
