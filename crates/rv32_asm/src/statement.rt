//! What a line says.

use crate::register::Register;
use asm_words::Word;
use dash_base::BranchOp;

/// What a line says, with the labels that it names as they stand.
#[derive(Drop)]
pub enum Statement<'a> {
    /// Nothing.
    Blank,
    /// A label is defined.
    Label(Word<'a>),
    /// A segment begins at this address, with these flags.
    Segment(u32, u32),
    /// The run begins at this label.
    Entry(Word<'a>),
    /// So many zeros.
    Space(u32),
    /// A word.
    Put(u32),
    /// The address of a label as a word.
    PutAddress(Word<'a>),
    /// A branch to a label.
    Branch(BranchOp, Register, Register, Word<'a>),
    /// A jump to a label, the return address kept in the register.
    Jump(Register, Word<'a>),
    /// The pair of instructions that gives the register this value.
    Pair(Register, u32),
    /// The pair that gives the register the address of a label.
    PairAddress(Register, Word<'a>),
}
