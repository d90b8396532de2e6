//! What a hart needs from outside to do an instruction.

use crate::end::End;
use crate::id::WordAddr;
use crate::instr::Labels;
use crate::mask::Mask;
use crate::ops::AmoOp;

/// What a prefetch prepares for.
#[derive(Clone, Copy, Debug, PartialEq, Eq)]
pub enum HintKind {
    /// Fetches of instructions: prefetch.i.
    Fetch,
    /// Reads, beside other readers: prefetch.r.
    Shared,
    /// Writes: prefetch.w.
    Exclusive,
}

/// What a hart needs for its next instruction.
#[derive(Clone, Copy, Debug, PartialEq, Eq)]
pub enum Need {
    /// It ended, or retired its budget, and does nothing.
    Rest,
    /// Nothing from outside the hart.
    Alu,
    /// A fence. Where it waits, what the hart wrote before is to be seen by all others first.
    Fence {
        waits: bool,
    },
    /// A prefetch of what stands at an address, which nothing waits for.
    Hint {
        kind: HintKind,
        address: u32,
    },
    /// A byte is to go to the console.
    Put {
        byte: u8,
    },
    /// The hart ends.
    Stop {
        end: End,
    },
    /// Bytes of a word of memory are to be read. LR also sets the hart's reservation.
    Load {
        word: WordAddr,
        mask: Mask,
        labels: Labels,
        reserve: bool,
    },
    /// Bytes of `value`, which stand in their places in the word, are to be written.
    Store {
        word: WordAddr,
        mask: Mask,
        value: u32,
    },
    /// A word of memory is to be read and written at once, by SC or another atomic operation.
    Rmw {
        word: WordAddr,
        op: AmoOp,
        operand: u32,
        labels: Labels,
    },
    /// `value` is to be written to a lock word as soon as that word is 0.
    Ask {
        word: WordAddr,
        value: u32,
    },
    /// 0 is to be written to a lock word, whatever stands there.
    Unlock {
        word: WordAddr,
    },
}
