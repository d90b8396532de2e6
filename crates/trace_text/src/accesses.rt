//! The text of accesses.
ghost use Rattle.std.specs.Prelude.{◌≡◌, ◌<◌, ◌++◌, OnOk, string_bytes};
ghost use Rattle.trace_text.specs.Spelling.{word_text};
ghost use Rattle.trace_text.specs.Fits.{IsShort, IsShortIfAny, FitsSeen, FitsAccess};
ghost use Rattle.trace_text.specs.AccessText.{op_text, labels_text, seen_text, access_head, access_tail, access_text};

use dash_base::{Labels, OutOfMemory};
use dash_event::{Access, Op, Seen};
use std::fmt::Write;

/// Appends an access: its hart, number, operation, labels, word, mask, what it read and wrote, and what
/// it was shown.
#[tactic(auto, unfolding(crate::specs::AccessText::access_text))]
pub fn push_access(text: &mut String, access: &Access) -> Result<(), OutOfMemory>
    ensures text { OnOk result (string_bytes text.new ≡ string_bytes text.old ++ access_text access.now) }
    ensures fits { OnOk result (FitsAccess access.now) }
{
    push_head(text, access)?;
    push_tail(text, access)?;
    push_seen(text, access.seen)?;
    Ok(())
}

/// Whose access it is, and of what kind.
#[tactic(auto, unfolding(crate::specs::AccessText::access_head))]
fn push_head(text: &mut String, access: &Access) -> Result<(), OutOfMemory>
    ensures text { OnOk result (string_bytes text.new ≡ string_bytes text.old ++ access_head access.now) }
    ensures fits { OnOk result (IsShort access.now.hart.0 × IsShort access.now.number) }
{
    let hart = access.hart.0;
    let number = access.number;
    let op = op_name(access.op);
    let labels = labels_name(access.labels);
    write!(text, "{hart} {number} {op} {labels} ")?;
    Ok(())
}

/// Which bytes it means, and what it read and wrote.
#[tactic(auto, unfolding(crate::specs::AccessText::access_tail, crate::specs::Spelling::hex))]
fn push_tail(text: &mut String, access: &Access) -> Result<(), OutOfMemory>
    ensures text { OnOk result (string_bytes text.new ≡ string_bytes text.old ++ access_tail access.now) }
    ensures fits { OnOk result (IsShort access.now.word.0 × (access.now.mask < 16) × IsShortIfAny access.now.read × IsShortIfAny access.now.written) }
{
    let word = access.word.0;
    let mask = access.mask.bits();
    write!(text, "{word:08x} {mask:x} ")?;
    push_value(text, access.read)?;
    text.push_str(" ")?;
    push_value(text, access.written)?;
    text.push_str(" ")?;
    Ok(())
}

/// A word, or `-` for none.
#[tactic(auto, unfolding(crate::specs::Spelling::hex))]
fn push_value(text: &mut String, value: Option<u32>) -> Result<(), OutOfMemory>
    ensures text { OnOk result (string_bytes text.new ≡ string_bytes text.old ++ word_text value) }
    ensures fits { OnOk result (IsShortIfAny value) }
{
    match value {
        Some(word) => write!(text, "{word:08x}")?,
        None => text.push_str("-")?,
    }
    Ok(())
}

/// Which content it was shown.
fn push_seen(text: &mut String, seen: Seen) -> Result<(), OutOfMemory>
    ensures text { OnOk result (string_bytes text.new ≡ string_bytes text.old ++ seen_text seen) }
    ensures fits { OnOk result (FitsSeen seen) }
{
    match seen {
        Seen::Line(version) => write!(text, "line {version}")?,
        Seen::Own(number) => write!(text, "own {number}")?,
        Seen::Lock(count) => write!(text, "lock {count}")?,
        Seen::Nothing => text.push_str("-")?,
    }
    Ok(())
}

fn op_name(op: Op) -> &'static str
    ensures { result.now ≡ op_text op }
{
    match op {
        Op::Load => "load",
        Op::Store => "store",
        Op::Reserve => "lr",
        Op::Cond => "sc",
        Op::Amo => "amo",
        Op::Ask => "ask",
        Op::Unlock => "unlock",
    }
}

fn labels_name(labels: Labels) -> &'static str
    ensures { result.now ≡ labels_text labels.aq labels.rl }
{
    match (labels.aq, labels.rl) {
        (false, false) => "-",
        (true, false) => "a",
        (false, true) => "r",
        (true, true) => "ar",
    }
}
