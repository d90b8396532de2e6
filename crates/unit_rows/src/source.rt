//! Where a load finds its bytes.

/// Where a load finds its bytes.
#[derive(Clone, Copy, Debug, PartialEq, Eq)]
pub enum Source {
    /// In the store with this number, which waits in its hart's buffer with this value.
    Stored { value: u32, number: u32 },
    /// In the copy of its line, which its hart holds.
    Held,
}
