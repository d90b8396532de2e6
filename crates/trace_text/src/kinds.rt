//! The text of what happened.
ghost use Rattle.std.specs.Prelude.{◌≡◌, ◌++◌, decimal, OnOk, string_bytes};
ghost use Rattle.trace_text.specs.Fits.{IsShort, FitsAccess, FitsKind};
ghost use Rattle.trace_text.specs.Spelling.{space};
ghost use Rattle.trace_text.specs.AccessText.{access_text};
ghost use Rattle.trace_text.specs.LogText.{of_hart, at_pc, own_text, kind_text};

use crate::accesses::push_access;
use crate::ends::push_end;
use crate::messages::push_msg;
use dash_base::{ClusterId, End, HartId, LineId, OutOfMemory};
use dash_event::{Access, Kind};
use dash_msg::Msg;
use std::fmt::Write;

/// Appends what happened: its name and its fields.
pub fn push_kind(text: &mut String, kind: &Kind) -> Result<(), OutOfMemory>
    ensures text { OnOk result (string_bytes text.new ≡ string_bytes text.old ++ kind_text kind.now) }
    ensures fits { OnOk result (FitsKind kind.now) }
{
    match kind {
        Kind::Alu { hart, pc } => push_at_pc(text, "alu", *hart, *pc),
        Kind::Fence { hart, pc } => push_at_pc(text, "fence", *hart, *pc),
        Kind::Hint { hart, pc, slot } => push_hint(text, *hart, *pc, *slot),
        Kind::Put { hart, pc, byte } => push_put(text, *hart, *pc, *byte),
        Kind::Stop { hart, pc, end } => push_stop(text, *hart, *pc, *end),
        Kind::Load { access, level } => push_load(text, access, *level),
        Kind::Store { access } => push_accessed(text, "store ", access),
        Kind::Commit {
            hart,
            number,
            line,
            version,
        } => push_commit(text, *hart, *number, *line, *version),
        Kind::Rmw {
            access,
            line,
            version,
        } => push_rmw(text, access, *line, *version),
        Kind::ScFail { access } => push_accessed(text, "scfail ", access),
        Kind::LockSend { hart, msg } => push_sent(text, *hart, msg),
        Kind::BusRead { hart, line } => push_of_line(text, "busread", *hart, *line),
        Kind::BusOwn { hart, line } => push_of_line(text, "busown", *hart, *line),
        Kind::Evict { hart, line } => push_of_line(text, "evict", *hart, *line),
        Kind::Ask {
            slot,
            hart,
            line,
            own,
        } => push_ask(text, *slot, *hart, *line, *own),
        Kind::Again { slot, line } => push_again(text, *slot, *line),
        Kind::Install { slot, hart, line } => push_install(text, *slot, *hart, *line),
        Kind::Grant { access } => push_accessed(text, "grant ", access),
        Kind::Free { from, access } => push_free(text, *from, access),
        Kind::Take { from, msg } => push_taken(text, *from, msg),
    }
}

/// A name and a hart.
fn push_of_hart(text: &mut String, name: &str, hart: HartId) -> Result<(), OutOfMemory>
    ensures text { OnOk result (string_bytes text.new ≡ string_bytes text.old ++ of_hart name.now hart) }
    ensures fits { OnOk result (IsShort hart.0) }
{
    let hart = hart.0;
    write!(text, "{name} {hart}")?;
    Ok(())
}

/// A name, a hart, and the address of its instruction.
#[tactic(auto, unfolding(crate::specs::Spelling::hex))]
fn push_at_pc(text: &mut String, name: &str, hart: HartId, pc: u32) -> Result<(), OutOfMemory>
    ensures text { OnOk result (string_bytes text.new ≡ string_bytes text.old ++ at_pc name.now hart pc) }
    ensures fits { OnOk result (IsShort hart.0 × IsShort pc) }
{
    let hart = hart.0;
    write!(text, "{name} {hart} {pc:08x}")?;
    Ok(())
}

/// A name, a hart, and a line's number.
fn push_of_line(
    text: &mut String,
    name: &str,
    hart: HartId,
    line: LineId,
) -> Result<(), OutOfMemory>
    ensures text { OnOk result (string_bytes text.new ≡ string_bytes text.old ++ (of_hart name.now hart ++ space ++ decimal line.0)) }
    ensures fits { OnOk result (IsShort hart.0 × IsShort line.0) }
{
    push_of_hart(text, name, hart)?;
    let line = line.0;
    write!(text, " {line}")?;
    Ok(())
}

/// A name and an access.
fn push_accessed(text: &mut String, name: &str, access: &Access) -> Result<(), OutOfMemory>
    ensures text { OnOk result (string_bytes text.new ≡ string_bytes text.old ++ (name.now ++ access_text access.now)) }
    ensures fits { OnOk result (FitsAccess access.now) }
{
    text.push_str(name)?;
    push_access(text, access)
}

/// A hint, and the slot that it opened or `-`.
fn push_hint(text: &mut String, hart: HartId, pc: u32, slot: Option<u32>) -> Result<(), OutOfMemory>
    ensures text { OnOk result (string_bytes text.new ≡ string_bytes text.old ++ kind_text (Kind.Hint hart pc slot)) }
    ensures fits { OnOk result (FitsKind (Kind.Hint hart pc slot)) }
{
    push_at_pc(text, "hint", hart, pc)?;
    match slot {
        Some(slot) => write!(text, " {slot}")?,
        None => text.push_str(" -")?,
    }
    Ok(())
}

/// A byte that is put on the console.
#[tactic(auto, unfolding(crate::specs::Spelling::hex_byte))]
fn push_put(text: &mut String, hart: HartId, pc: u32, byte: u8) -> Result<(), OutOfMemory>
    ensures text { OnOk result (string_bytes text.new ≡ string_bytes text.old ++ kind_text (Kind.Put hart pc byte)) }
    ensures fits { OnOk result (FitsKind (Kind.Put hart pc byte)) }
{
    push_at_pc(text, "put", hart, pc)?;
    write!(text, " {byte:02x}")?;
    Ok(())
}

/// The end of a hart.
fn push_stop(text: &mut String, hart: HartId, pc: u32, end: End) -> Result<(), OutOfMemory>
    ensures text { OnOk result (string_bytes text.new ≡ string_bytes text.old ++ kind_text (Kind.Stop hart pc end)) }
    ensures fits { OnOk result (FitsKind (Kind.Stop hart pc end)) }
{
    push_at_pc(text, "stop", hart, pc)?;
    text.push_str(" ")?;
    push_end(text, end)
}

/// A load, and the level that had its line.
fn push_load(text: &mut String, access: &Access, level: u32) -> Result<(), OutOfMemory>
    ensures text { OnOk result (string_bytes text.new ≡ string_bytes text.old ++ kind_text (Kind.Load access.now level)) }
    ensures fits { OnOk result (FitsKind (Kind.Load access.now level)) }
{
    push_accessed(text, "load ", access)?;
    write!(text, " {level}")?;
    Ok(())
}

/// A store that left its buffer.
fn push_commit(
    text: &mut String,
    hart: HartId,
    number: u32,
    line: LineId,
    version: u64,
) -> Result<(), OutOfMemory>
    ensures text { OnOk result (string_bytes text.new ≡ string_bytes text.old ++ kind_text (Kind.Commit hart number line version)) }
    ensures fits { OnOk result (FitsKind (Kind.Commit hart number line version)) }
{
    let hart = hart.0;
    let line = line.0;
    write!(text, "commit {hart} {number} {line} {version}")?;
    Ok(())
}

/// An atomic operation that committed.
fn push_rmw(
    text: &mut String,
    access: &Access,
    line: LineId,
    version: u64,
) -> Result<(), OutOfMemory>
    ensures text { OnOk result (string_bytes text.new ≡ string_bytes text.old ++ kind_text (Kind.Rmw access.now line version)) }
    ensures fits { OnOk result (FitsKind (Kind.Rmw access.now line version)) }
{
    push_accessed(text, "rmw ", access)?;
    let line = line.0;
    write!(text, " {line} {version}")?;
    Ok(())
}

/// The message of a lock instruction.
fn push_sent(text: &mut String, hart: HartId, msg: &Msg) -> Result<(), OutOfMemory>
    ensures text { OnOk result (string_bytes text.new ≡ string_bytes text.old ++ kind_text (Kind.LockSend hart msg.now)) }
    ensures fits { OnOk result (FitsKind (Kind.LockSend hart msg.now)) }
{
    push_of_hart(text, "locksend", hart)?;
    text.push_str(" ")?;
    push_msg(text, msg)
}

/// A slot that asked for a line.
fn push_ask(
    text: &mut String,
    slot: u32,
    hart: HartId,
    line: LineId,
    own: bool,
) -> Result<(), OutOfMemory>
    ensures text { OnOk result (string_bytes text.new ≡ string_bytes text.old ++ kind_text (Kind.Ask slot hart line own)) }
    ensures fits { OnOk result (FitsKind (Kind.Ask slot hart line own)) }
{
    let hart = hart.0;
    let line = line.0;
    let own = own_name(own);
    write!(text, "ask {slot} {hart} {line} {own}")?;
    Ok(())
}

fn own_name(own: bool) -> &'static str
    ensures { result.now ≡ own_text own }
{
    if own { "own" } else { "read" }
}

/// A slot that asked again.
fn push_again(text: &mut String, slot: u32, line: LineId) -> Result<(), OutOfMemory>
    ensures text { OnOk result (string_bytes text.new ≡ string_bytes text.old ++ kind_text (Kind.Again slot line)) }
    ensures fits { OnOk result (FitsKind (Kind.Again slot line)) }
{
    let line = line.0;
    write!(text, "again {slot} {line}")?;
    Ok(())
}

/// A line that entered a hart's caches.
fn push_install(text: &mut String, slot: u32, hart: HartId, line: LineId) -> Result<(), OutOfMemory>
    ensures text { OnOk result (string_bytes text.new ≡ string_bytes text.old ++ kind_text (Kind.Install slot hart line)) }
    ensures fits { OnOk result (FitsKind (Kind.Install slot hart line)) }
{
    let hart = hart.0;
    let line = line.0;
    write!(text, "install {slot} {hart} {line}")?;
    Ok(())
}

/// A lock word that was freed, and by which cluster.
fn push_free(text: &mut String, from: ClusterId, access: &Access) -> Result<(), OutOfMemory>
    ensures text { OnOk result (string_bytes text.new ≡ string_bytes text.old ++ kind_text (Kind.Free from access.now)) }
    ensures fits { OnOk result (FitsKind (Kind.Free from access.now)) }
{
    let from = from.0;
    write!(text, "free {from} ")?;
    push_access(text, access)
}

/// A message that was taken, and from which cluster.
fn push_taken(text: &mut String, from: ClusterId, msg: &Msg) -> Result<(), OutOfMemory>
    ensures text { OnOk result (string_bytes text.new ≡ string_bytes text.old ++ kind_text (Kind.Take from msg.now)) }
    ensures fits { OnOk result (FitsKind (Kind.Take from msg.now)) }
{
    let from = from.0;
    write!(text, "take {from} ")?;
    push_msg(text, msg)
}
