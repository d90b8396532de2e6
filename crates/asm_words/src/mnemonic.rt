//! The mnemonics and directives.
ghost use Rattle.std.specs.Prelude.{◌≡◌};
ghost use Rattle.asm_words.specs.Mnemonics.{spelled};

use dash_base::{AluOp, AmoOp, BranchOp, Labels, LoadOp, StoreOp};
use rv32_decode::HintKind;

/// What a line begins with: the mnemonic of an instruction or of a pair of them, or a directive.
#[derive(Clone, Copy, Debug, PartialEq, Eq)]
pub enum Mnemonic {
    Lui,
    Auipc,
    Jal,
    Jalr,
    Branch(BranchOp),
    Load(LoadOp),
    Store(StoreOp),
    /// An operation on a register and an immediate: one that has such a form.
    Immediate(AluOp),
    /// An operation on two registers.
    Registers(AluOp),
    Atomic(AmoOp, Labels),
    Fence,
    Ecall,
    Ebreak,
    Prefetch(HintKind),
    /// `li`
    LoadImmediate,
    /// `la`
    LoadAddress,
    /// `j`
    Jump,
    Nop,
    /// `mv`
    Move,
    /// `.text`
    Text,
    /// `.data`
    Data,
    /// `.word`
    Word,
    /// `.space`
    Space,
    /// `.entry`
    Entry,
}
