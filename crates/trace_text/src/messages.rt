//! The text of messages.
ghost use Rattle.std.specs.Prelude.{◌≡◌, ◌++◌, ℕ, List, decimal, OnOk, string_bytes};
ghost use Rattle.trace_text.specs.Fits.{IsShort, FitsLine, FitsMsg};
ghost use Rattle.trace_text.specs.Spelling.{space, hex};
ghost use Rattle.trace_text.specs.MsgText.{copy_text, of_line, msg_text};

use dash_base::{ClusterId, HartId, Line, LineId, OutOfMemory, WordAddr};
use dash_msg::Msg;
use std::fmt::Write;

/// Appends a message: its name and its fields.
pub fn push_msg(text: &mut String, msg: &Msg) -> Result<(), OutOfMemory>
    ensures text { OnOk result (string_bytes text.new ≡ string_bytes text.old ++ msg_text msg.now) }
    ensures fits { OnOk result (FitsMsg msg.now) }
{
    match msg {
        Msg::Read { line } => push_line(text, "read", *line),
        Msg::ReadEx { line } => push_line(text, "readex", *line),
        Msg::FwdRead { line, to } => push_for(text, "fwdread", *line, *to),
        Msg::FwdReadEx { line, to } => push_for(text, "fwdreadex", *line, *to),
        Msg::Inval { line, to } => push_for(text, "inval", *line, *to),
        Msg::WriteBack { line, copy } => push_copied(text, "writeback", *line, copy),
        Msg::SharingBack { line, copy, to } => push_copied_with(
            text,
            "sharingback",
            *line,
            copy,
            to.0,
        ),
        Msg::Transfer { line, to } => push_for(text, "transfer", *line, *to),
        Msg::LockAsk {
            hart,
            number,
            word,
            value,
        } => push_ask(text, *hart, *number, *word, *value),
        Msg::Unlock { hart, number, word } => push_unlock(text, *hart, *number, *word),
        Msg::Data { line, copy } => push_copied(text, "data", *line, copy),
        Msg::DataEx { line, copy, count } => push_copied_with(text, "dataex", *line, copy, *count),
        Msg::Ack { line } => push_line(text, "ack", *line),
        Msg::TransferAck { line } => push_line(text, "transferack", *line),
        Msg::Nak { line } => push_line(text, "nak", *line),
        Msg::LockGrant { hart } => push_grant(text, *hart),
        Msg::UnlockAck { hart, old } => push_unlocked(text, *hart, *old),
    }
}

/// A name and a line's number.
fn push_line(text: &mut String, name: &str, line: LineId) -> Result<(), OutOfMemory>
    ensures text { OnOk result (string_bytes text.new ≡ string_bytes text.old ++ of_line name.now line) }
    ensures fits { OnOk result (IsShort line.0) }
{
    let line = line.0;
    write!(text, "{name} {line}")?;
    Ok(())
}

/// A name, a line's number, and the cluster that asked for the line.
fn push_for(text: &mut String, name: &str, line: LineId, to: ClusterId) -> Result<(), OutOfMemory>
    ensures text { OnOk result (string_bytes text.new ≡ string_bytes text.old ++ (of_line name.now line ++ space ++ decimal to.0)) }
    ensures fits { OnOk result (IsShort line.0 × IsShort to.0) }
{
    push_line(text, name, line)?;
    let to = to.0;
    write!(text, " {to}")?;
    Ok(())
}

/// A name, a line's number, and the line's content.
fn push_copied(text: &mut String, name: &str, line: LineId, copy: &Line) -> Result<(), OutOfMemory>
    ensures text { OnOk result (string_bytes text.new ≡ string_bytes text.old ++ (of_line name.now line ++ space ++ copy_text copy.now)) }
    ensures fits { OnOk result (IsShort line.0 × FitsLine copy.now) }
{
    push_line(text, name, line)?;
    text.push_str(" ")?;
    push_copy(text, copy)
}

/// The content of a line.
#[tactic(auto, unfolding(crate::specs::MsgText::copy_text))]
fn push_copy(text: &mut String, copy: &Line) -> Result<(), OutOfMemory>
    ensures text { OnOk result (string_bytes text.new ≡ string_bytes text.old ++ copy_text copy.now) }
    ensures fits { OnOk result (FitsLine copy.now) }
{
    push_word(text, copy.words[0])?;
    push_word(text, copy.words[1])?;
    push_word(text, copy.words[2])?;
    push_word(text, copy.words[3])?;
    let version = copy.version;
    write!(text, "{version}")?;
    Ok(())
}

/// A word, and a space behind it.
#[tactic(auto, unfolding(crate::specs::Spelling::hex))]
fn push_word(text: &mut String, word: u32) -> Result<(), OutOfMemory>
    ensures text { OnOk result (string_bytes text.new ≡ string_bytes text.old ++ (hex word ++ space)) }
    ensures fits { OnOk result (IsShort word) }
{
    write!(text, "{word:08x} ")?;
    Ok(())
}

/// A name, a line's number, the line's content, and one number more.
fn push_copied_with(
    text: &mut String,
    name: &str,
    line: LineId,
    copy: &Line,
    number: u32,
) -> Result<(), OutOfMemory>
    ensures text { OnOk result (string_bytes text.new ≡ string_bytes text.old ++ (of_line name.now line ++ space ++ copy_text copy.now ++ space ++ decimal number)) }
    ensures fits { OnOk result (IsShort line.0 × FitsLine copy.now × IsShort number) }
{
    push_copied(text, name, line, copy)?;
    write!(text, " {number}")?;
    Ok(())
}

/// A hart asks for a lock word.
#[tactic(auto, unfolding(crate::specs::Spelling::hex))]
fn push_ask(
    text: &mut String,
    hart: HartId,
    number: u32,
    word: WordAddr,
    value: u32,
) -> Result<(), OutOfMemory>
    ensures text { OnOk result (string_bytes text.new ≡ string_bytes text.old ++ msg_text (Msg.LockAsk hart number word value)) }
    ensures fits { OnOk result (FitsMsg (Msg.LockAsk hart number word value)) }
{
    let hart = hart.0;
    let word = word.0;
    write!(text, "lockask {hart} {number} {word:08x} {value:08x}")?;
    Ok(())
}

/// A hart gives a lock word back.
#[tactic(auto, unfolding(crate::specs::Spelling::hex))]
fn push_unlock(
    text: &mut String,
    hart: HartId,
    number: u32,
    word: WordAddr,
) -> Result<(), OutOfMemory>
    ensures text { OnOk result (string_bytes text.new ≡ string_bytes text.old ++ msg_text (Msg.Unlock hart number word)) }
    ensures fits { OnOk result (FitsMsg (Msg.Unlock hart number word)) }
{
    let hart = hart.0;
    let word = word.0;
    write!(text, "unlock {hart} {number} {word:08x}")?;
    Ok(())
}

/// A hart is granted its lock word.
fn push_grant(text: &mut String, hart: HartId) -> Result<(), OutOfMemory>
    ensures text { OnOk result (string_bytes text.new ≡ string_bytes text.old ++ msg_text (Msg.LockGrant hart)) }
    ensures fits { OnOk result (FitsMsg (Msg.LockGrant hart)) }
{
    let hart = hart.0;
    write!(text, "lockgrant {hart}")?;
    Ok(())
}

/// A hart is told that its lock word was given back, and what it held.
#[tactic(auto, unfolding(crate::specs::Spelling::hex))]
fn push_unlocked(text: &mut String, hart: HartId, old: u32) -> Result<(), OutOfMemory>
    ensures text { OnOk result (string_bytes text.new ≡ string_bytes text.old ++ msg_text (Msg.UnlockAck hart old)) }
    ensures fits { OnOk result (FitsMsg (Msg.UnlockAck hart old)) }
{
    let hart = hart.0;
    write!(text, "unlockack {hart} {old:08x}")?;
    Ok(())
}
