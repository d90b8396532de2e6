//! The event of a line.
ghost use Rattle.std.specs.Prelude.{◌≡◌, IfOk};
ghost use Rattle.trace_text.specs.Reading.{IsAppended};

use crate::log::push_event;
use crate::read_kinds::take_kind;
use crate::words::Words;
use dash_base::OutOfMemory;
use dash_event::Event;

/// Appends the event whose line this is, newline included, and tells whether it is one's: what the words
/// of the line would stand for is written again, into the buffer, and compared.
pub fn read_event(
    log: &mut Vec<Event>,
    buffer: &mut String,
    line: &[u8],
) -> Result<bool, OutOfMemory>
    ensures { IfOk result (IsAppended line.now log.old.items log.new.items) }
{
    let mut words = Words::of(line);
    let event = Event {
        stamp: words.long(),
        cluster: words.cluster(),
        kind: take_kind(&mut words),
    };
    buffer.clear();
    push_event(buffer, &event)?;
    if buffer.as_bytes() != line {
        return Ok(false);
    }
    log.push(event)?;
    Ok(true)
}
