//! Searches among slots.
ghost use Rattle.std.specs.Prelude.{◌≡◌, ◌≤◌, length, option_map};
ghost use Rattle.std.specs.List.{position};
ghost use Rattle.remote_cache.specs.Rows.{reply_line};
ghost use Rattle.remote_cache.specs.View.{is_of, IsUsed};

use crate::slot::Slot;
use dash_base::LineId;
use dash_msg::Msg;

/// The number of the first slot that has a line.
pub fn number_of(slots: &[Option<Slot>], line: LineId) -> Option<usize>
    ensures { result ≡ position (is_of line.0) slots.now }
{
    slots.iter().position(|slot| is_of(slot, line))
}

/// The number after that of the last slot that is not empty: 0 where all are.
pub fn used(slots: &[Option<Slot>]) -> usize
    ensures used { IsUsed slots.now result }
    ensures within { result ≤ length slots.now }
{
    let mut used = 0;
    for (id, slot) in slots.iter().enumerate() {
        if slot.is_some() {
            used = id + 1;
        }
    }
    used
}

/// Whether a slot has a line.
fn is_of(slot: &Option<Slot>, line: LineId) -> bool
    ensures { result ≡ is_of line.0 slot.now }
{
    match slot {
        None => false,
        Some(slot) => slot.line == line,
    }
}

/// The line of a reply to a request.
pub fn reply_line(msg: &Msg) -> Option<LineId>
    ensures { result ≡ reply_line msg.now }
{
    match msg {
        Msg::Data { line, .. } | Msg::DataEx { line, .. } | Msg::Nak { line } => Some(*line),
        _ => None,
    }
}
