//! How a hart ends.

/// Why a hart trapped. There are no trap handlers: a trap is the hart's end.
#[derive(Clone, Copy, Debug, PartialEq, Eq)]
pub enum Trap {
    /// The word at the pc is no instruction that is served.
    Illegal,
    /// An access, a branch or a jump whose address is no multiple of its size.
    Misaligned,
    /// An access outside memory and the lock region.
    Unmapped,
    /// A store into a segment that is not writable.
    ReadOnly,
    /// The four bytes at the pc are not all in one executable segment.
    Fetch,
    /// An access to the lock region in another way than by its two forms.
    LockUse,
    /// An environment call with an unknown number in a7.
    BadCall,
    /// EBREAK.
    Break,
}

/// Whether and how a hart has ended.
#[derive(Clone, Copy, Debug, PartialEq, Eq)]
pub enum End {
    Running,
    /// It asked to end, with this code.
    Exited(u32),
    /// It trapped. `value` is the address, word or number that the cause is about, or 0.
    Trapped { cause: Trap, value: u32 },
}
