//! Words from their instructions, and executable files from their segments.
//!
//! The layout of a word, which contracts speak of, is the one that `rv32_decode` reads words by. A file has
//! the fields that `elf_load` reads.
#![tactic(auto)]

ghost use Rattle.std.specs.Prelude.{◌≡◌};
ghost use Rattle.rv32_decode.specs.Layout.{word_of};

pub use dash_base::{Instr, OutOfMemory, Segment};
pub use elf::write_elf;
pub use program::Program;

mod elf;
mod fields;
mod formats;
mod instrs;
pub mod laws;
mod program;
mod tables;

/// The word of an instruction.
pub fn encode(instr: &Instr) -> u32
    ensures { result ≡ word_of instr.now }
{
    match instr {
        Instr::Lui(i) => formats::u_type(i.imm, i.rd, 0b0110111),
        Instr::Auipc(i) => formats::u_type(i.imm, i.rd, 0b0010111),
        Instr::Jal(i) => instrs::jal(i),
        Instr::Jalr(i) => instrs::jalr(i),
        Instr::Branch(i) => instrs::branch(i),
        Instr::Load(i) => instrs::load(i),
        Instr::Store(i) => instrs::store(i),
        Instr::OpImm(i) => instrs::op_imm(i),
        Instr::Op(i) => instrs::op(i),
        Instr::Amo(i) => instrs::amo(i),
        Instr::Fence(i) => instrs::fence(i),
        Instr::Ecall => 0x0000_0073,
        Instr::Ebreak => 0x0010_0073,
    }
}
