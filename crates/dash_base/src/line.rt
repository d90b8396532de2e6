//! The content of a line.

/// A line of memory or of a cache.
#[derive(Clone, Copy, Debug, PartialEq, Eq)]
pub struct Line {
    /// The four words, that of the lowest address first.
    pub words: [u32; 4],
    /// How many times a write of the line was committed.
    pub version: u64,
}
