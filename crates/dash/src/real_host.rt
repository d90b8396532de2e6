//! The host of real files and streams: the trusted edge.
ghost use Rattle.std.specs.Prelude.{None, true, IfOk};
ghost use Rattle.dash.specs.Contents.{IsWithin};

use dash_base::{Failed, Host, LoadFault, Stream};
use std::alloc::Global;
use std::fs::File;
use std::io;
use std::io::{ErrorKind, Read, Write};

/// Reads real files, and writes standard output and standard error. It tells contracts neither the
/// files nor what was printed, and counts its faults.
#[derive(Drop)]
pub struct RealHost<'a> {
    rt: &'a HostRuntime,
    load_faults: u64,
    print_faults: u64,
}

impl<'a> RealHost<'a> {
    pub fn new(rt: &'a HostRuntime) -> RealHost<'a> {
        RealHost {
            rt,
            load_faults: 0,
            print_faults: 0,
        }
    }
}

impl<'a> Host for RealHost<'a> {
    ghost files = { λ h. None };

    ghost printed = { λ h. None };

    ghost load_faults = { λ h. h.load_faults };

    ghost print_faults = { λ h. h.print_faults };

    ghost may_load = { λ h name. true };

    fn load(&mut self, alloc: Global, name: &str, limit: u64) -> Result<Vec<u8>, LoadFault> {
        match read(self.rt, alloc, name, limit) {
            Ok(Contents::Whole(bytes)) => Ok(bytes),
            Ok(Contents::Larger(size)) => Err(LoadFault::TooLarge { size }),
            Err(error) if error.kind() == ErrorKind::OutOfMemory => Err(LoadFault::OutOfMemory),
            Err(_) => {
                self.load_faults = self.load_faults.saturating_add(1);
                Err(LoadFault::Failed)
            }
        }
    }

    fn print(&mut self, to: Stream, bytes: &[u8]) -> Result<(), Failed> {
        let written = match to {
            Stream::Out => self.rt.stdout().write_all(bytes),
            Stream::Err => self.rt.stderr().write_all(bytes),
        };
        match written {
            Ok(()) => Ok(()),
            Err(_) => {
                self.print_faults = self.print_faults.saturating_add(1);
                Err(Failed)
            }
        }
    }
}

/// What was read of a file.
#[derive(Drop)]
enum Contents {
    /// All of it.
    Whole(Vec<u8>),
    /// It has more bytes than the limit: so many.
    Larger(u64),
}

/// Reads a file of at most `limit` bytes. One that is known to be larger is not read at all.
fn read(rt: &HostRuntime, alloc: Global, name: &str, limit: u64) -> io::Result<Contents>
    ensures { IfOk result (IsWithin limit) }
{
    let file = File::open(rt, name)?;
    let size = file.metadata()?.len();
    if size > limit {
        return Ok(Contents::Larger(size));
    }
    let mut bytes = Vec::with_capacity(alloc, size as usize)?;
    file.take(limit.saturating_add(1)).read_to_end(&mut bytes)?;
    let count = bytes.len() as u64;
    if count > limit {
        return Ok(Contents::Larger(count));
    }
    Ok(Contents::Whole(bytes))
}
