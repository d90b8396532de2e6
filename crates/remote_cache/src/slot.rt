//! A request for a line, and how far it has come.

use dash_base::{Line, LineId};

/// How far a request has come.
#[derive(Clone, Copy, Debug, PartialEq, Eq)]
pub enum Phase {
    /// The request was sent, and its reply is to come.
    Asked,
    /// The same, but the line was invalidated meanwhile, so a copy that comes is not to be used.
    Poisoned,
    /// The request was refused, and is to be sent again.
    Refused,
    /// The copy came, and waits for room in the hart's cache.
    Came(Line),
}

/// A request for a line.
#[derive(Clone, Copy, Debug, PartialEq, Eq)]
pub struct Slot {
    /// The hart that it was made for, counted within its cluster.
    pub hart: u32,
    pub line: LineId,
    /// Whether the hart is to own the line, or else only to read it.
    pub own: bool,
    pub phase: Phase,
}
