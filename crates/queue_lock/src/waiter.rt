//! Who waits for a lock word.

use dash_base::HartId;

/// A hart that has asked for a lock word and was not yet granted it.
#[derive(Clone, Copy, Debug, PartialEq, Eq)]
pub struct Waiter {
    pub hart: HartId,
    /// The number of the instruction that asks, in its hart, from 1.
    pub number: u32,
    /// What the word is to hold once it is granted.
    pub value: u32,
}
