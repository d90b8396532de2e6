//! What a home keeps of a line.

use crate::entry::EntryState;
use dash_base::Line;

/// A line's entry, and its content in memory.
#[derive(Clone, Copy, Debug, PartialEq, Eq)]
pub struct HomeLine {
    pub entry: EntryState,
    pub content: Line,
}
