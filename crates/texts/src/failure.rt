//! Why nothing is printed.

use dash_base::OutOfMemory;
use rv32_asm::AsmRefusal;
use std::alloc::{AllocError, AllocFailed};
use std::io;
use std::io::ErrorKind;
use trace_text::TextRefusal;

/// Why nothing is printed.
#[derive(Drop)]
pub enum Failure {
    /// The words have none of the forms.
    Usage,
    /// A file can't be read, or nothing can be written.
    Failed,
    /// The text is no log's.
    Log(TextRefusal),
    /// The source is no program's.
    Source(AsmRefusal),
    /// There was no memory.
    OutOfMemory,
}

impl Failure {
    /// The exit status.
    pub fn status(&self) -> u8 {
        match self {
            Failure::Log(TextRefusal::OutOfMemory) | Failure::OutOfMemory => 6,
            Failure::Source(AsmRefusal::OutOfMemory) => 6,
            Failure::Log(_) | Failure::Source(_) => 1,
            Failure::Usage => 2,
            Failure::Failed => 5,
        }
    }

    /// Prints the line of a refusal.
    pub fn tell(&self, rt: &HostRuntime) -> io::Result<()> {
        match self {
            Failure::Log(TextRefusal::Head) => eprintln!(rt; "texts: head"),
            Failure::Log(TextRefusal::Cut) => eprintln!(rt; "texts: cut"),
            Failure::Log(TextRefusal::At { line }) => eprintln!(rt; "texts: line {line}"),
            Failure::Source(AsmRefusal::At { line, cause }) => {
                eprintln!(rt; "texts: line {line}: {cause:?}")
            }
            _ => Ok(()),
        }
    }
}

impl From<io::Error> for Failure {
    fn from(error: io::Error) -> Failure {
        if error.kind() == ErrorKind::OutOfMemory {
            Failure::OutOfMemory
        } else {
            Failure::Failed
        }
    }
}

impl From<TextRefusal> for Failure {
    fn from(refusal: TextRefusal) -> Failure {
        Failure::Log(refusal)
    }
}

impl From<AsmRefusal> for Failure {
    fn from(refusal: AsmRefusal) -> Failure {
        Failure::Source(refusal)
    }
}

impl From<OutOfMemory> for Failure {
    fn from(_error: OutOfMemory) -> Failure {
        Failure::OutOfMemory
    }
}

impl<T: Drop> From<AllocFailed<T>> for Failure {
    fn from(_failed: AllocFailed<T>) -> Failure {
        Failure::OutOfMemory
    }
}
