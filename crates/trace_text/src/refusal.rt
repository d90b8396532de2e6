//! Why a text is no log's.

use dash_base::OutOfMemory;
use std::alloc::{AllocError, AllocFailed};

/// Why a text is refused.
#[derive(Clone, Copy, Debug, PartialEq, Eq)]
pub enum TextRefusal {
    /// It doesn't begin with the line `dash log 1`.
    Head,
    /// Its last byte is no newline.
    Cut,
    /// This line, counted from 1 for the first, is the first that is no event's.
    At { line: u32 },
    /// There was no memory.
    OutOfMemory,
}

impl From<AllocError> for TextRefusal {
    ghost use Rattle.std.specs.Prelude.{◌≡◌};
    ghost use Rattle.trace_text.specs.declared.refusal.TextRefusal.TheVariants as refusal;

    ghost from_gives = { λ _ e. e ≡ refusal.OutOfMemory };

    fn from(_error: AllocError) -> TextRefusal {
        TextRefusal::OutOfMemory
    }
}

impl From<OutOfMemory> for TextRefusal {
    ghost use Rattle.std.specs.Prelude.{◌≡◌};
    ghost use Rattle.trace_text.specs.declared.refusal.TextRefusal.TheVariants as refusal;

    ghost from_gives = { λ _ e. e ≡ refusal.OutOfMemory };

    fn from(_error: OutOfMemory) -> TextRefusal {
        TextRefusal::OutOfMemory
    }
}

impl<T: Drop> From<AllocFailed<T>> for TextRefusal {
    ghost use Rattle.std.specs.Prelude.{◌≡◌};
    ghost use Rattle.trace_text.specs.declared.refusal.TextRefusal.TheVariants as refusal;

    ghost from_gives = { λ _ e. e ≡ refusal.OutOfMemory };

    fn from(_failed: AllocFailed<T>) -> TextRefusal {
        TextRefusal::OutOfMemory
    }
}
