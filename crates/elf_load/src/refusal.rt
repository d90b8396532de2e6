//! Why a file is refused.

use dash_base::OutOfMemory;
use thiserror::Error;

/// Why a file is refused: the first of these that applies, at the first program headers at which it
/// does. `i` and `j` are places in the file's table of program headers, from 0. Want of memory may
/// stand in place of any refusal, and in place of an image.
#[derive(Clone, Copy, Debug, PartialEq, Eq, Error)]
pub enum LoadRefusal {
    /// The file ends, after `at` bytes, before its file header or its program headers do.
    #[error("the file ends at byte {at}, before its headers do")]
    Short { at: u64 },
    /// The file does not begin as an ELF file does.
    #[error("the file is no ELF file")]
    NotElf,
    /// The file is not one of 32 bits with the lowest byte of a number first.
    #[error("the file is not one of 32 bits, little endian")]
    NotClass32Little,
    /// The file is for another machine than RISC-V.
    #[error("the file is not for RISC-V")]
    NotRiscv,
    /// The file is no executable.
    #[error("the file is no executable")]
    NotExec,
    /// The code has compressed instructions.
    #[error("the file has compressed instructions")]
    Compressed,
    /// The code is for the reduced set of registers.
    #[error("the file is for the reduced set of registers")]
    Reduced,
    /// The program headers have `size` bytes each, not 32.
    #[error("the program headers have {size} bytes, not 32")]
    HeaderSize { size: u32 },
    /// A segment's bytes end behind the end of the file.
    #[error("segment {i} ends out of the file")]
    SegmentOutOfFile { i: u32 },
    /// A segment has more bytes in the file than in memory.
    #[error("segment {i} has more bytes in the file than in memory")]
    FileSizeAboveMemory { i: u32 },
    /// A segment begins before memory, or ends behind it.
    #[error("segment {i} is out of memory")]
    SegmentOutOfMemory { i: u32 },
    /// Two segments share an address.
    #[error("segments {i} and {j} overlap")]
    Overlap { i: u32, j: u32 },
    /// No program header is that of a segment.
    #[error("the file has no segment")]
    NoSegment,
    /// The entry is no multiple of 4, or not in a segment that may be executed.
    #[error("the entry {entry:08x} is not executable")]
    EntryNotExecutable { entry: u32 },
    #[error("out of memory")]
    OutOfMemory,
}

impl From<OutOfMemory> for LoadRefusal {
    ghost use Rattle.std.specs.Prelude.{◌≡◌};
    ghost use Rattle.elf_load.specs.declared.refusal.LoadRefusal.TheVariants.{OutOfMemory};

    ghost from_gives = { λ _ e. e ≡ OutOfMemory };

    fn from(_error: OutOfMemory) -> LoadRefusal {
        LoadRefusal::OutOfMemory
    }
}
