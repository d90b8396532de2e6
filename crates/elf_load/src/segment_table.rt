//! The segments of a file, by their program headers.
ghost use Rattle.std.specs.Prelude.{◌≡◌, ◌+◌, ◌*◌, ◌≤◌, false, length, IfOk};
ghost use Rattle.elf_load.specs.Header.{file_header};
ghost use Rattle.elf_load.specs.Refusal.{is_short, is_segment};
ghost use Rattle.elf_load.specs.Table.{numbered_at, numbered_segments};

use crate::header::{FileHeader, PT_LOAD, ProgramHeader};
use dash_base::OutOfMemory;
use std::alloc::Global;

/// The program header of a segment, with its number.
#[derive(Clone, Copy)]
pub struct Numbered {
    /// Its place in the file's table of program headers, from 0.
    pub number: u32,
    pub header: ProgramHeader,
}

/// The segments of a file, in the order of their program headers.
#[tactic(auto, unfolding(crate::specs::Table::numbered_segments))]
pub fn segment_table(alloc: Global, bytes: &[u8]) -> Result<Vec<Numbered>, OutOfMemory>
    requires { is_short bytes.now ≡ false }
    ensures { IfOk result (λ segments. segments.items ≡ numbered_segments bytes.now) }
{
    Ok(
        (0..u32::from(FileHeader::read(bytes).e_phnum))
            .map(|number| with_number(bytes, number))
            .filter(|segment| is_segment(segment.header))
            .collect(alloc)?,
    )
}

fn with_number(bytes: &[u8], number: u32) -> Numbered
    requires file { 52 ≤ length bytes.now }
    requires table { (file_header bytes.now).e_phoff + 32 * number + 32 ≤ length bytes.now }
    ensures { result ≡ numbered_at bytes.now number }
{
    Numbered {
        number,
        header: ProgramHeader::of_number(bytes, number),
    }
}

/// Whether the program header is that of a segment: of its type, and with bytes in the file or in
/// memory.
fn is_segment(header: ProgramHeader) -> bool
    ensures { result ≡ is_segment header }
{
    header.p_type == PT_LOAD && !(header.p_filesz == 0 && header.p_memsz == 0)
}
