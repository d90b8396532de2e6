//! The refusals that the file header alone decides.
ghost use Rattle.std.specs.Prelude.{◌≡◌, false, MatchOption, IfNone};
ghost use Rattle.elf_load.specs.Refusal.{is_short, is_elf, is_class_32_little, is_riscv, is_executable, is_compressed, is_reduced, has_other_headers, IsFirstRefusal};
ghost use Rattle.elf_load.specs.Stages.{IsClear};
ghost use Rattle.elf_load.specs.declared.memory_map.MemoryMap.{MemoryMap};

use crate::header::{
    EF_RISCV_RVC, EF_RISCV_RVE, ELFCLASS32, ELFDATA2LSB, EM_RISCV, ET_EXEC, FileHeader,
    ProgramHeader,
};
use crate::refusal::LoadRefusal;

/// The first of the refusals 1 to 8 that applies.
pub fn file_refusal(bytes: &[u8]) -> Option<LoadRefusal>
    ensures first { (map : MemoryMap) → MatchOption result (IsClear 9 bytes.now map) (IsFirstRefusal bytes.now map) }
    ensures whole { IfNone result (is_short bytes.now ≡ false) }
{
    if is_short(bytes) {
        return Some(LoadRefusal::Short {
            at: bytes.len() as u64,
        });
    }
    let file = FileHeader::read(bytes);
    if !is_elf(bytes) {
        Some(LoadRefusal::NotElf)
    } else if !is_class_32_little(file) {
        Some(LoadRefusal::NotClass32Little)
    } else if !is_riscv(file) {
        Some(LoadRefusal::NotRiscv)
    } else if !is_executable(file) {
        Some(LoadRefusal::NotExec)
    } else if is_compressed(file) {
        Some(LoadRefusal::Compressed)
    } else if is_reduced(file) {
        Some(LoadRefusal::Reduced)
    } else if has_other_headers(file) {
        Some(LoadRefusal::HeaderSize {
            size: u32::from(file.e_phentsize),
        })
    } else {
        None
    }
}

/// Whether the file ends before its file header or its program headers do.
fn is_short(bytes: &[u8]) -> bool
    ensures { result ≡ is_short bytes.now }
{
    bytes.len() < FileHeader::SIZE || bytes.len() < FileHeader::read(bytes).headers_end()
}

/// Whether the file begins as an ELF file does.
fn is_elf(bytes: &[u8]) -> bool
    ensures { result ≡ is_elf bytes.now }
{
    bytes.starts_with(b"\x7fELF")
}

/// Whether the file is one of 32 bits, with the lowest byte of a number first.
fn is_class_32_little(header: FileHeader) -> bool
    ensures { result ≡ is_class_32_little header }
{
    header.ei_class == ELFCLASS32 && header.ei_data == ELFDATA2LSB
}

/// Whether the file is for RISC-V.
fn is_riscv(header: FileHeader) -> bool
    ensures { result ≡ is_riscv header }
{
    header.e_machine == EM_RISCV
}

/// Whether the file is an executable.
fn is_executable(header: FileHeader) -> bool
    ensures { result ≡ is_executable header }
{
    header.e_type == ET_EXEC
}

/// Whether the code has compressed instructions.
fn is_compressed(header: FileHeader) -> bool
    ensures { result ≡ is_compressed header }
{
    header.e_flags & EF_RISCV_RVC != 0
}

/// Whether the code is for the reduced set of registers.
#[tactic(auto, using(crate::proofs::Flags::and_eight))]
fn is_reduced(header: FileHeader) -> bool
    ensures { result ≡ is_reduced header }
{
    header.e_flags & EF_RISCV_RVE != 0
}

/// Whether the file has program headers of another size than they are read with.
fn has_other_headers(header: FileHeader) -> bool
    ensures { result ≡ has_other_headers header }
{
    header.e_phnum != 0 && usize::from(header.e_phentsize) != ProgramHeader::SIZE
}
