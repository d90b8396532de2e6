//! Instructions from their words.
//!
//! The layout of a word, which contracts speak of, is that of the RISC-V unprivileged manual's formats,
//! in `specs/Layout.antt`.
#![tactic(auto)]

ghost use Rattle.std.specs.Prelude.{◌≡◌, IfSome};
ghost use Rattle.dash_base.specs.declared.instr.Instr.{Instr};
ghost use Rattle.rv32_decode.specs.Decoding.{IsDecoding};
ghost use Rattle.rv32_decode.specs.Layout.{word_of};

pub use dash_base::{AluOp, AmoOp, BranchOp, HintKind, Instr, LoadOp, StoreOp};
use fields::bits;
pub use hints::hint;
pub use prefetch::Hint;

mod fields;
mod formats;
mod hints;
pub mod laws;
mod prefetch;
mod tables;

/// The instruction that has this word, or None where none has it.
pub fn decode(word: u32) -> Option<Instr>
    ensures some { IfSome result (λ i. word_of i ≡ word) }
    ensures only { (i : Instr) → word_of i ≡ word → result ≡ Some i }
{
    row(word)
}

/// The row of the word's opcode.
fn row(word: u32) -> Option<Instr>
    ensures { IsDecoding word result }
{
    match bits(word, 0, 7) {
        0b0110111 => Some(Instr::Lui(formats::upper(word))),
        0b0010111 => Some(Instr::Auipc(formats::upper(word))),
        0b1101111 => formats::jal(word),
        0b1100111 => formats::jalr(word),
        0b1100011 => formats::branch(word),
        0b0000011 => formats::load(word),
        0b0100011 => formats::store(word),
        0b0010011 => formats::op_imm(word),
        0b0110011 => formats::op(word),
        0b0101111 => formats::amo(word),
        0b0001111 => formats::fence(word),
        0b1110011 => formats::system(word),
        _ => None,
    }
}
