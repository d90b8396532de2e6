//! The text of how a hart ended.
ghost use Rattle.std.specs.Prelude.{◌≡◌, ◌++◌, OnOk, string_bytes};
ghost use Rattle.trace_text.specs.Fits.{FitsEnd};
ghost use Rattle.trace_text.specs.Spelling.{cause_text};
ghost use Rattle.trace_text.specs.LogText.{end_text};

use dash_base::{End, OutOfMemory, Trap};
use std::fmt::Write;

/// Appends how a hart ended.
#[tactic(auto, unfolding(crate::specs::Spelling::hex))]
pub fn push_end(text: &mut String, end: End) -> Result<(), OutOfMemory>
    ensures text { OnOk result (string_bytes text.new ≡ string_bytes text.old ++ end_text end) }
    ensures fits { OnOk result (FitsEnd end) }
{
    match end {
        End::Exited(code) => write!(text, "exit {code:08x}")?,
        End::Trapped { cause, value } => {
            let cause = cause_name(cause);
            write!(text, "trap {cause} {value:08x}")?
        }
        End::Running => text.push_str("running")?,
    }
    Ok(())
}

/// The name of a trap's cause.
pub fn cause_name(cause: Trap) -> &'static str
    ensures { result.now ≡ cause_text cause }
{
    match cause {
        Trap::Illegal => "illegal",
        Trap::Misaligned => "misaligned",
        Trap::Unmapped => "unmapped",
        Trap::ReadOnly => "readonly",
        Trap::Fetch => "fetch",
        Trap::LockUse => "lockuse",
        Trap::BadCall => "badcall",
        Trap::Break => "break",
    }
}
