//! Texts that are read and written again.
ghost use Rattle.std.specs.Prelude.{◌≡◌, ◌-◌, ◌^◌, ◌<◌, length, IfOk, IfErr};
ghost use Rattle.trace_text.specs.Reading.{IsRefusedFor};

use std::alloc::Global;
use trace_text::{TextRefusal, read_log, write_log};

/// The text of the log whose text this is.
pub fn log(alloc: Global, bytes: &[u8]) -> Result<Vec<u8>, TextRefusal>
    requires { length bytes.now < 2 ^ 32 - 1 }
    ensures same { IfOk result (λ text. text.items ≡ bytes.now) }
    ensures refused { IfErr result (IsRefusedFor bytes.now) }
{
    let log = read_log(alloc, bytes)?;
    Ok(write_log(alloc, &log)?)
}
