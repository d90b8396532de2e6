//! The text of a log.
ghost use Rattle.std.specs.Prelude.{◌≡◌, ◌++◌, IfOk, OnOk, flat_map, string_bytes};
ghost use Rattle.std.specs.List.{AllByRecursion};
ghost use Rattle.trace_text.specs.Fits.{FitsEvent};
ghost use Rattle.trace_text.specs.LogText.{event_line};
ghost use Rattle.trace_text.specs.Reading.{IsTextOf};

use crate::kinds::push_kind;
use dash_base::OutOfMemory;
use dash_event::Event;
use std::alloc::Global;
use std::fmt::Write;

/// The text of a log: the line `dash log 1`, and a line for each event, in order. A text is that of one log
/// at most (`laws::reading_gives_back`), so this is the log that `read_log` gives of it.
pub fn write_log(alloc: Global, log: &[Event]) -> Result<Vec<u8>, OutOfMemory>
    ensures { IfOk result (λ text. IsTextOf text.items log.now) }
{
    let mut text = String::from_str(alloc, "dash log 1\n")?;
    push_events(&mut text, log)?;
    Ok(text.into_bytes())
}

/// A line for each event.
fn push_events(text: &mut String, log: &[Event]) -> Result<(), OutOfMemory>
    ensures text { OnOk result (string_bytes text.new ≡ string_bytes text.old ++ flat_map event_line log.now) }
    ensures fits { OnOk result (AllByRecursion FitsEvent log.now) }
{
    for event in log {
        push_event(text, event)?;
    }
    Ok(())
}

/// Appends the line of an event, with its newline.
#[tactic(auto, unfolding(crate::specs::LogText::event_line))]
pub fn push_event(text: &mut String, event: &Event) -> Result<(), OutOfMemory>
    ensures text { OnOk result (string_bytes text.new ≡ string_bytes text.old ++ event_line event.now) }
    ensures fits { OnOk result (FitsEvent event.now) }
{
    let stamp = event.stamp;
    let cluster = event.cluster.0;
    write!(text, "{stamp} {cluster} ")?;
    push_kind(text, &event.kind)?;
    text.push_str("\n")?;
    Ok(())
}
