//! Executable files (System V ABI, "ELF Header" and "Program Header").
ghost use Rattle.std.specs.Prelude.{◌≡◌, ◌++◌, ◌≤◌, ◌<◌, ◌^◌, ◌∷◌, [], All, IfOk, length};
ghost use Rattle.dash_base.specs.Segment.{SegmentView};
ghost use Rattle.rv32_encode.specs.Elf.{contents, contents_place, elf_of, file_header_bytes, halves, segment_fields, table_bytes, words};
ghost use Rattle.rv32_encode.specs.Written.{FitsHeader, IsWritable};

use crate::program::Program;
use dash_base::{OutOfMemory, Segment};
use std::alloc::Global;

/// The bytes of a file header.
const FILE_HEADER_SIZE: u32 = 52;
/// The bytes of a program header.
const PROGRAM_HEADER_SIZE: u32 = 32;
/// `e_ident`: the magic number, ELFCLASS32, ELFDATA2LSB, EV_CURRENT, and padding.
const IDENT: [u8; 16] = [0x7f, b'E', b'L', b'F', 1, 1, 1, 0, 0, 0, 0, 0, 0, 0, 0, 0];
/// `e_type` of an executable.
const ET_EXEC: u16 = 2;
/// `e_machine` of RISC-V.
const EM_RISCV: u16 = 243;
/// `e_version`.
const EV_CURRENT: u32 = 1;
/// `p_type` of a segment to load.
const PT_LOAD: u32 = 1;

/// The executable file of a program: the file header, a program header for each segment, and then the
/// segments' bytes, without gaps. It has no sections and asks for no alignment.
///
/// The program has at most 64 segments, of at most 33,554,432 bytes in all.
///
/// # Errors
///
/// `OutOfMemory` alone.
#[tactic(auto, unfolding(crate::specs::Elf::elf_of))]
pub fn write_elf(alloc: Global, program: &Program) -> Result<Vec<u8>, OutOfMemory>
    requires few { length program.now.segments ≤ 64 }
    requires small { length (contents program.now.segments) ≤ 33554432 }
    ensures bytes { IfOk result (λ file. file.items ≡ elf_of program.now) }
    ensures writable { IfOk result (λ _. IsWritable program.now) }
{
    let mut file = Vec::new(alloc);
    put_file_header(&mut file, program.entry, program.segments.len() as u16)?;
    put_program_headers(&mut file, &program.segments)?;
    put_contents(&mut file, &program.segments)?;
    Ok(file)
}

/// Appends the file header of a file with so many program headers.
#[tactic(auto, unfolding(crate::specs::Elf::file_header_bytes))]
fn put_file_header(file: &mut Vec<u8>, entry: u32, count: u16) -> Result<(), OutOfMemory>
    ensures { IfOk result (λ _. file.new.items ≡ file.old.items ++ file_header_bytes entry count) }
{
    let header = FILE_HEADER_SIZE as u16;
    let program_header = PROGRAM_HEADER_SIZE as u16;
    file.extend_from_slice(&IDENT)?;
    put_halves(file, &[ET_EXEC, EM_RISCV])?;
    put_words(file, &[EV_CURRENT, entry, FILE_HEADER_SIZE, 0, 0])?;
    put_halves(file, &[header, program_header, count, 0, 0, 0])
}

/// Appends the program headers of segments whose bytes follow them in the file.
fn put_program_headers(file: &mut Vec<u8>, segments: &[Segment]) -> Result<(), OutOfMemory>
    requires few { length segments.now ≤ 64 }
    requires small { length (contents segments.now) ≤ 33554432 }
    ensures bytes { IfOk result (λ _. file.new.items
        ≡ file.old.items ++ table_bytes (contents_place segments.now) segments.now) }
    ensures fit { IfOk result (λ _. All FitsHeader segments.now) }
{
    let mut offset = FILE_HEADER_SIZE + PROGRAM_HEADER_SIZE * segments.len() as u32;
    for segment in segments {
        let size = segment.bytes.len() as u32;
        put_program_header(file, offset, size, segment)?;
        offset += size;
    }
    Ok(())
}

/// Appends the program header of a segment with so many bytes, which stand at a place in the file.
fn put_program_header(
    file: &mut Vec<u8>,
    offset: u32,
    size: u32,
    segment: &Segment,
) -> Result<(), OutOfMemory>
    requires { size ≡ length segment.now.bytes }
    ensures bytes { IfOk result (λ _. file.new.items ≡ file.old.items ++ words (segment_fields offset segment.now)) }
    ensures fits { FitsHeader segment.now }
{
    let fields = load_fields(offset, segment.vaddr, size, segment.memsz, segment.flags);
    put_words(file, &fields)
}

/// The fields of the program header of a segment to load: its physical address is the other one, and it
/// has no alignment.
fn load_fields(offset: u32, vaddr: u32, filesz: u32, memsz: u32, flags: u32) -> [u32; 8]
    ensures fields { result ≡ 1 ∷ offset ∷ vaddr ∷ vaddr ∷ filesz ∷ memsz ∷ flags ∷ 1 ∷ [] }
    ensures vaddr { vaddr < 2 ^ 32 }
    ensures memsz { memsz < 2 ^ 32 }
    ensures flags { flags < 2 ^ 32 }
{
    [PT_LOAD, offset, vaddr, vaddr, filesz, memsz, flags, 1]
}

/// Appends the bytes of segments.
#[tactic(auto, unfolding(crate::specs::Elf::contents))]
fn put_contents(file: &mut Vec<u8>, segments: &[Segment]) -> Result<(), OutOfMemory>
    ensures { IfOk result (λ _. file.new.items ≡ file.old.items ++ contents segments.now) }
{
    for segment in segments {
        file.extend_from_slice(&segment.bytes)?;
    }
    Ok(())
}

/// Appends numbers of two bytes each, the lowest byte first.
#[tactic(auto, unfolding(crate::specs::Elf::halves))]
fn put_halves(file: &mut Vec<u8>, numbers: &[u16]) -> Result<(), OutOfMemory>
    ensures { IfOk result (λ _. file.new.items ≡ file.old.items ++ halves numbers.now) }
{
    for number in numbers {
        file.extend_from_slice(&number.to_le_bytes())?;
    }
    Ok(())
}

/// Appends numbers of four bytes each, the lowest byte first.
#[tactic(auto, unfolding(crate::specs::Elf::words))]
fn put_words(file: &mut Vec<u8>, numbers: &[u32]) -> Result<(), OutOfMemory>
    ensures { IfOk result (λ _. file.new.items ≡ file.old.items ++ words numbers.now) }
{
    for number in numbers {
        file.extend_from_slice(&number.to_le_bytes())?;
    }
    Ok(())
}
