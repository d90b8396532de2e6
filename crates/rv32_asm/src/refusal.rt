//! Why a source is refused.

use dash_base::OutOfMemory;
use std::alloc::{AllocError, AllocFailed};

/// Why a line is refused. The causes of a line are tried in this order.
#[derive(Clone, Copy, Debug, PartialEq, Eq)]
pub enum AsmCause {
    /// It has no form of the grammar, and isn't a `Name`.
    Shape,
    /// Its first word is no mnemonic or directive, or a word of letters and digits in a register's place
    /// names none.
    Name,
    /// A number, or the offset to a defined label, is out of its field's range or no multiple.
    Immediate,
    /// It is a label that was defined before.
    Twice,
    /// It names a label that is not defined.
    Missing,
    /// It has words or a label, and stands before any segment.
    NoSegment,
    /// There are more than 16,777,216 bytes, more than 64 segments, or an address past 2^32 - 1.
    TooLong,
}

/// Why a source is refused.
#[derive(Clone, Copy, Debug, PartialEq, Eq)]
pub enum AsmRefusal {
    /// This line, counted from 1, is the first that is refused.
    At { line: u32, cause: AsmCause },
    /// There was no memory.
    OutOfMemory,
}

impl From<AllocError> for AsmRefusal {
    ghost use Rattle.std.specs.Prelude.{◌≡◌};
    ghost use Rattle.rv32_asm.specs.declared.refusal.AsmRefusal.TheVariants as refusal;

    ghost from_gives = { λ _ e. e ≡ refusal.OutOfMemory };

    fn from(_error: AllocError) -> AsmRefusal {
        AsmRefusal::OutOfMemory
    }
}

impl From<OutOfMemory> for AsmRefusal {
    ghost use Rattle.std.specs.Prelude.{◌≡◌};
    ghost use Rattle.rv32_asm.specs.declared.refusal.AsmRefusal.TheVariants as refusal;

    ghost from_gives = { λ _ e. e ≡ refusal.OutOfMemory };

    fn from(_error: OutOfMemory) -> AsmRefusal {
        AsmRefusal::OutOfMemory
    }
}

impl<T: Drop> From<AllocFailed<T>> for AsmRefusal {
    ghost use Rattle.std.specs.Prelude.{◌≡◌};
    ghost use Rattle.rv32_asm.specs.declared.refusal.AsmRefusal.TheVariants as refusal;

    ghost from_gives = { λ _ e. e ≡ refusal.OutOfMemory };

    fn from(_failed: AllocFailed<T>) -> AsmRefusal {
        AsmRefusal::OutOfMemory
    }
}
