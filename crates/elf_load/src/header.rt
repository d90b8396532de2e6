//! The headers of an ELF file of 32 bits: the fields that the loader looks at, under their names in
//! the System V ABI.
ghost use Rattle.std.specs.Prelude.{◌≡◌, ◌+◌, ◌*◌, ◌≤◌, length};
ghost use Rattle.elf_load.specs.Header.{half_at, word_at, file_header, program_header, header_at};

use byteorder::{ByteOrder, LittleEndian};

/// `ei_class` of a file of 32 bits.
pub const ELFCLASS32: u8 = 1;
/// `ei_data` of a file with the lowest byte of a number first.
pub const ELFDATA2LSB: u8 = 1;
/// `e_type` of an executable.
pub const ET_EXEC: u16 = 2;
/// `e_machine` of RISC-V.
pub const EM_RISCV: u16 = 243;
/// The bit of `e_flags` for code with compressed instructions.
pub const EF_RISCV_RVC: u32 = 1;
/// The bit of `e_flags` for code with the reduced set of registers.
pub const EF_RISCV_RVE: u32 = 8;
/// `p_type` of a segment to load.
pub const PT_LOAD: u32 = 1;

/// The file header, of `FileHeader::SIZE` bytes at the start of the file.
#[derive(Clone, Copy)]
pub struct FileHeader {
    pub ei_class: u8,
    pub ei_data: u8,
    pub e_type: u16,
    pub e_machine: u16,
    pub e_entry: u32,
    pub e_phoff: u32,
    pub e_flags: u32,
    pub e_phentsize: u16,
    pub e_phnum: u16,
}

/// A program header, of `ProgramHeader::SIZE` bytes: where a segment lies in the file and in memory.
#[derive(Clone, Copy)]
pub struct ProgramHeader {
    pub p_type: u32,
    pub p_offset: u32,
    pub p_vaddr: u32,
    pub p_filesz: u32,
    pub p_memsz: u32,
    pub p_flags: u32,
}

impl FileHeader {
    /// The number of its bytes.
    pub const SIZE: usize = 52;

    pub fn read(bytes: &[u8]) -> FileHeader
        requires { 52 ≤ length bytes.now }
        ensures { result ≡ file_header bytes.now }
    {
        FileHeader {
            ei_class: bytes[4],
            ei_data: bytes[5],
            e_type: half_at(bytes, 16),
            e_machine: half_at(bytes, 18),
            e_entry: word_at(bytes, 24),
            e_phoff: word_at(bytes, 28),
            e_flags: word_at(bytes, 36),
            e_phentsize: half_at(bytes, 42),
            e_phnum: half_at(bytes, 44),
        }
    }

    /// The place in the file at which its program headers end.
    pub fn headers_end(self) -> usize
        ensures { result ≡ self.e_phoff + 32 * self.e_phnum }
    {
        self.e_phoff as usize + ProgramHeader::SIZE * usize::from(self.e_phnum)
    }
}

impl ProgramHeader {
    /// The number of its bytes.
    pub const SIZE: usize = 32;

    /// The program header at a place in the file.
    pub fn read(bytes: &[u8], place: usize) -> ProgramHeader
        requires { place + 32 ≤ length bytes.now }
        ensures { result ≡ program_header bytes.now place }
    {
        ProgramHeader {
            p_type: word_at(bytes, place),
            p_offset: word_at(bytes, place + 4),
            p_vaddr: word_at(bytes, place + 8),
            p_filesz: word_at(bytes, place + 16),
            p_memsz: word_at(bytes, place + 20),
            p_flags: word_at(bytes, place + 24),
        }
    }

    /// The program header of a number, from 0, in the file's table of program headers.
    #[tactic(auto, unfolding(crate::specs::Header::header_at))]
    pub fn of_number(bytes: &[u8], number: u32) -> ProgramHeader
        requires file { 52 ≤ length bytes.now }
        requires table { (file_header bytes.now).e_phoff + 32 * number + 32 ≤ length bytes.now }
        ensures { result ≡ header_at bytes.now number }
    {
        let table = FileHeader::read(bytes).e_phoff as usize;
        ProgramHeader::read(bytes, table + ProgramHeader::SIZE * number as usize)
    }

    /// The address at which its segment ends in memory.
    pub fn segment_end(self) -> u64
        ensures { result ≡ self.p_vaddr + self.p_memsz }
    {
        u64::from(self.p_vaddr) + u64::from(self.p_memsz)
    }
}

/// The number in two bytes, the lowest first.
#[tactic(auto, unfolding(crate::specs::Header::half_at))]
fn half_at(bytes: &[u8], place: usize) -> u16
    requires { place + 2 ≤ length bytes.now }
    ensures { result ≡ half_at bytes.now place }
{
    LittleEndian::read_u16(&bytes[place..])
}

/// The number in four bytes, the lowest first.
#[tactic(auto, unfolding(crate::specs::Header::word_at))]
fn word_at(bytes: &[u8], place: usize) -> u32
    requires { place + 4 ≤ length bytes.now }
    ensures { result ≡ word_at bytes.now place }
{
    LittleEndian::read_u32(&bytes[place..])
}
