//! An instruction of RV32IMA, whose type keeps each field in its range.
//!
//! Registers are numbered from 0 to 31. Offsets and immediates are in bytes and plain numbers, as
//! the manual's assembly has them. A variant holds a struct, since the ranges are facts of a struct.
ghost use Rattle.std.specs.Prelude.{◌≡◌, ℕ, ◌%◌, ◌^◌, ◌<◌, IsTrue};
ghost use Rattle.dash_base.specs.Ranges.{FitsBits, FitsOffset, FitsImmediate, has_immediate};
ghost use Rattle.dash_base.specs.declared.ops.AmoOp.TheVariants.{Lr};

use crate::ops::{AluOp, AmoOp, BranchOp, LoadOp, StoreOp};

/// The ordering bits of an atomic instruction.
#[derive(Clone, Copy, Debug, PartialEq, Eq)]
pub struct Labels {
    pub aq: bool,
    pub rl: bool,
}

/// LUI or AUIPC. `imm` is the whole addend, with its low 12 bits 0.
#[derive(Clone, Copy, Debug, PartialEq, Eq)]
pub struct Upper {
    pub rd: u32,
    pub imm: u32,
    pub ghost rd_in_range: { rd < 32 },
    pub ghost imm_in_range: { imm < 2 ^ 32 },
    pub ghost imm_is_upper: { imm % 2 ^ 12 ≡ 0 },
}

/// JAL.
#[derive(Clone, Copy, Debug, PartialEq, Eq)]
pub struct Jal {
    pub rd: u32,
    pub offset: i32,
    pub ghost rd_in_range: { rd < 32 },
    pub ghost offset_in_range: { FitsOffset 21 offset },
}

/// JALR.
#[derive(Clone, Copy, Debug, PartialEq, Eq)]
pub struct Jalr {
    pub rd: u32,
    pub rs1: u32,
    pub offset: i32,
    pub ghost rd_in_range: { rd < 32 },
    pub ghost rs1_in_range: { rs1 < 32 },
    pub ghost offset_in_range: { FitsBits 12 offset },
}

/// A conditional branch.
#[derive(Clone, Copy, Debug, PartialEq, Eq)]
pub struct Branch {
    pub op: BranchOp,
    pub rs1: u32,
    pub rs2: u32,
    pub offset: i32,
    pub ghost rs1_in_range: { rs1 < 32 },
    pub ghost rs2_in_range: { rs2 < 32 },
    pub ghost offset_in_range: { FitsOffset 13 offset },
}

/// A load.
#[derive(Clone, Copy, Debug, PartialEq, Eq)]
pub struct Load {
    pub op: LoadOp,
    pub rd: u32,
    pub rs1: u32,
    pub offset: i32,
    pub ghost rd_in_range: { rd < 32 },
    pub ghost rs1_in_range: { rs1 < 32 },
    pub ghost offset_in_range: { FitsBits 12 offset },
}

/// A store: `rs2` goes to the address `rs1` + `offset`.
#[derive(Clone, Copy, Debug, PartialEq, Eq)]
pub struct Store {
    pub op: StoreOp,
    pub rs1: u32,
    pub rs2: u32,
    pub offset: i32,
    pub ghost rs1_in_range: { rs1 < 32 },
    pub ghost rs2_in_range: { rs2 < 32 },
    pub ghost offset_in_range: { FitsBits 12 offset },
}

/// An operation on a register and an immediate: from 0 to 31 for a shift, else of 12 signed bits.
#[derive(Clone, Copy, Debug, PartialEq, Eq)]
pub struct OpImm {
    pub op: AluOp,
    pub rd: u32,
    pub rs1: u32,
    pub imm: i32,
    pub ghost has_form: { IsTrue (has_immediate op) },
    pub ghost rd_in_range: { rd < 32 },
    pub ghost rs1_in_range: { rs1 < 32 },
    pub ghost imm_in_range: { FitsImmediate op imm },
}

/// An operation on two registers.
#[derive(Clone, Copy, Debug, PartialEq, Eq)]
pub struct Op {
    pub op: AluOp,
    pub rd: u32,
    pub rs1: u32,
    pub rs2: u32,
    pub ghost rd_in_range: { rd < 32 },
    pub ghost rs1_in_range: { rs1 < 32 },
    pub ghost rs2_in_range: { rs2 < 32 },
}

/// An atomic operation on the word at the address in `rs1`. LR has no source, so its `rs2` is 0.
#[derive(Clone, Copy, Debug, PartialEq, Eq)]
pub struct Amo {
    pub op: AmoOp,
    pub labels: Labels,
    pub rd: u32,
    pub rs1: u32,
    pub rs2: u32,
    pub ghost rd_in_range: { rd < 32 },
    pub ghost rs1_in_range: { rs1 < 32 },
    pub ghost rs2_in_range: { rs2 < 32 },
    pub ghost lr_has_no_source: { op ≡ Lr → rs2 ≡ 0 },
}

/// FENCE, with its fields as they stand. `pred` and `succ` have a bit each for input, output,
/// reads and writes, from the highest.
#[derive(Clone, Copy, Debug, PartialEq, Eq)]
pub struct Fence {
    pub fm: u32,
    pub pred: u32,
    pub succ: u32,
    pub rd: u32,
    pub rs1: u32,
    pub ghost fm_in_range: { fm < 16 },
    pub ghost pred_in_range: { pred < 16 },
    pub ghost succ_in_range: { succ < 16 },
    pub ghost rd_in_range: { rd < 32 },
    pub ghost rs1_in_range: { rs1 < 32 },
}

/// An instruction.
#[derive(Clone, Copy, Debug, PartialEq, Eq)]
pub enum Instr {
    Lui(Upper),
    Auipc(Upper),
    Jal(Jal),
    Jalr(Jalr),
    Branch(Branch),
    Load(Load),
    Store(Store),
    OpImm(OpImm),
    Op(Op),
    Amo(Amo),
    Fence(Fence),
    Ecall,
    Ebreak,
}
