//! The messages.

use dash_base::{ClusterId, HartId, Line, LineId, WordAddr};

/// A message from one cluster to another, or to itself. Who sent it stands beside it. `to` is the
/// cluster that asked for the line, `copy` a line's content.
#[derive(Clone, Copy, Debug, PartialEq, Eq)]
pub enum Msg {
    /// To the home of the line: the sender asks for a copy.
    Read {
        line: LineId,
    },
    /// To the home of the line: the sender asks to own it.
    ReadEx {
        line: LineId,
    },
    /// To the owner: `to` asks for a copy.
    FwdRead {
        line: LineId,
        to: ClusterId,
    },
    /// To the owner: `to` asks to own the line.
    FwdReadEx {
        line: LineId,
        to: ClusterId,
    },
    /// To a sharer: its copies are void, since `to` becomes the owner.
    Inval {
        line: LineId,
        to: ClusterId,
    },
    /// To the home: the owner gives the line up.
    WriteBack {
        line: LineId,
        copy: Line,
    },
    /// To the home: the owner gave `to` a copy, and is a sharer from now on.
    SharingBack {
        line: LineId,
        copy: Line,
        to: ClusterId,
    },
    /// To the home: the owner gave the line to `to`.
    Transfer {
        line: LineId,
        to: ClusterId,
    },
    /// To the home of the lock word: the hart asks for it. `number` is that of its instruction, and
    /// `value` what the word is to hold once it is granted.
    LockAsk {
        hart: HartId,
        number: u32,
        word: WordAddr,
        value: u32,
    },
    /// To the home of the lock word: the hart gives it back.
    Unlock {
        hart: HartId,
        number: u32,
        word: WordAddr,
    },
    /// The copy that was asked for.
    Data {
        line: LineId,
        copy: Line,
    },
    /// The line, to own. `count` acknowledgements are to follow.
    DataEx {
        line: LineId,
        copy: Line,
        count: u32,
    },
    /// To who becomes the owner: the sender's copies are gone.
    Ack {
        line: LineId,
    },
    /// To the new owner: the home knows of it.
    TransferAck {
        line: LineId,
    },
    /// The request is refused, and has to be made again.
    Nak {
        line: LineId,
    },
    /// The lock word is the hart's.
    LockGrant {
        hart: HartId,
    },
    /// The lock word is given back. `old` is what it held.
    UnlockAck {
        hart: HartId,
        old: u32,
    },
}
