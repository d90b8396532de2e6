//! What a log shows.
ghost use Rattle.std.specs.Prelude.{◌≡◌, ◌++◌, IfOk, OnOk};
ghost use Rattle.dash_event.specs.Records.{accesses_in, accesses_of, bytes_in, console_of};

use dash_base::OutOfMemory;
use dash_event::{Access, Event, Kind};
use std::alloc::Global;

/// The accesses of a log, in its order: loads, stores where they retired, atomic operations, failed
/// SCs, and the grants and frees of lock words.
///
/// # Errors
///
/// There was no memory for the list.
pub fn accesses(alloc: Global, log: &[Event]) -> Result<Vec<Access>, OutOfMemory>
    ensures { IfOk result (λ accesses. accesses.items ≡ accesses_of log.now) }
{
    let mut accesses: Vec<Access> = Vec::new(alloc);
    for event in log {
        push_access(&mut accesses, &event.kind)?;
    }
    Ok(accesses)
}

/// The bytes that a log puts on the console, in its order.
///
/// # Errors
///
/// There was no memory for the bytes.
pub fn console(alloc: Global, log: &[Event]) -> Result<Vec<u8>, OutOfMemory>
    ensures { IfOk result (λ console. console.items ≡ console_of log.now) }
{
    let mut console: Vec<u8> = Vec::new(alloc);
    for event in log {
        push_byte(&mut console, &event.kind)?;
    }
    Ok(console)
}

/// Adds the access that was made, where one was.
fn push_access(accesses: &mut Vec<Access>, kind: &Kind) -> Result<(), OutOfMemory>
    ensures { OnOk result (accesses.new.items ≡ accesses.old.items ++ accesses_in kind.now) }
{
    if let Some(access) = kind.access() {
        accesses.push(*access)?;
    }
    Ok(())
}

/// Adds the byte that was put on the console, where one was.
fn push_byte(console: &mut Vec<u8>, kind: &Kind) -> Result<(), OutOfMemory>
    ensures { OnOk result (console.new.items ≡ console.old.items ++ bytes_in kind.now) }
{
    if let Kind::Put { byte, .. } = kind {
        console.push(*byte)?;
    }
    Ok(())
}
