//! The text of accesses.
ghost use Rattle.std.specs.Prelude.{◌≡◌, ◌++◌, length, flat_map, IfOk, OnOk, string_bytes};
ghost use Rattle.dash_event.specs.Records.{accesses_in, accesses_of};
ghost use Rattle.dash_run.specs.Report.{access_line, access_section};

use dash_base::OutOfMemory;
use dash_event::{Access, Event, Kind};
use std::alloc::Global;

/// The access section: how many accesses a log has, and a line for each.
#[tactic(auto, unfolding(crate::specs::Report::access_section))]
pub fn access_section(alloc: Global, log: &[Event]) -> Result<String, OutOfMemory>
    ensures { IfOk result (λ text. string_bytes text ≡ access_section (accesses_of log.now)) }
{
    let count = count_accesses(log);
    let mut text = format!(in alloc; "accesses {count}\n")?;
    push_accesses(&mut text, log)?;
    Ok(text)
}

/// How many accesses a log has.
fn count_accesses(log: &[Event]) -> usize
    ensures { result ≡ length (accesses_of log.now) }
{
    let mut count = 0usize;
    for event in log {
        if event.kind.access().is_some() {
            count += 1;
        }
    }
    count
}

/// A line for each access of a log.
fn push_accesses(text: &mut String, log: &[Event]) -> Result<(), OutOfMemory>
    ensures { OnOk result (string_bytes text.new ≡ string_bytes text.old ++ flat_map access_line (accesses_of log.now)) }
{
    for event in log {
        push_accesses_of(text, &event.kind)?;
    }
    Ok(())
}

/// A line for the access of an event, where it has one.
fn push_accesses_of(text: &mut String, kind: &Kind) -> Result<(), OutOfMemory>
    ensures { OnOk result (string_bytes text.new ≡ string_bytes text.old ++ flat_map access_line (accesses_in kind.now)) }
{
    match kind.access() {
        Some(access) => push_access(text, access),
        None => Ok(()),
    }
}

/// The line of an access.
#[tactic(auto, unfolding(crate::specs::Report::access_line))]
fn push_access(text: &mut String, access: &Access) -> Result<(), OutOfMemory>
    ensures { OnOk result (string_bytes text.new ≡ string_bytes text.old ++ access_line access.now) }
{
    trace_text::push_access(text, access)?;
    text.push_str("\n")?;
    Ok(())
}
