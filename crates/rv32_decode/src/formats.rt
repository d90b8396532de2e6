//! An instruction from its word, by the format that its opcode has.
ghost use Rattle.std.specs.Prelude.{◌≡◌, ◌≢◌, ◌⊎◌};
ghost use Rattle.rv32_decode.specs.Decoding.{IsDecoding};
ghost use Rattle.rv32_decode.specs.Layout.{bits_from, u_type};

use crate::fields::{bits, signed};
use crate::tables::{alu_op, amo_op, branch_op, immediate_op, load_op, shift_op, store_op};
use dash_base::{
    Amo, AmoOp, Branch, Fence, Instr, Jal, Jalr, Labels, Load, Op, OpImm, Store, Upper,
};

/// The operands of LUI and AUIPC.
pub fn upper(word: u32) -> Upper
    ensures { u_type result.imm result.rd (bits_from 0 7 word) ≡ word }
{
    Upper {
        rd: bits(word, 7, 5),
        imm: bits(word, 12, 20) << 12,
    }
}

/// JAL.
pub fn jal(word: u32) -> Option<Instr>
    requires { bits_from 0 7 word ≡ 0b1101111 }
    ensures { IsDecoding word result }
{
    let offset = (bits(word, 31, 1) << 20)
        + (bits(word, 12, 8) << 12)
        + (bits(word, 20, 1) << 11)
        + (bits(word, 21, 10) << 1);
    Some(Instr::Jal(Jal {
        rd: bits(word, 7, 5),
        offset: signed(offset, 21),
    }))
}

/// JALR.
pub fn jalr(word: u32) -> Option<Instr>
    requires { bits_from 0 7 word ≡ 0b1100111 }
    ensures { IsDecoding word result }
{
    if bits(word, 12, 3) != 0b000 {
        return None;
    }
    Some(Instr::Jalr(Jalr {
        rd: bits(word, 7, 5),
        rs1: bits(word, 15, 5),
        offset: signed(bits(word, 20, 12), 12),
    }))
}

/// A branch.
pub fn branch(word: u32) -> Option<Instr>
    requires { bits_from 0 7 word ≡ 0b1100011 }
    ensures { IsDecoding word result }
{
    let offset = (bits(word, 31, 1) << 12)
        + (bits(word, 7, 1) << 11)
        + (bits(word, 25, 6) << 5)
        + (bits(word, 8, 4) << 1);
    Some(Instr::Branch(Branch {
        op: branch_op(bits(word, 12, 3))?,
        rs1: bits(word, 15, 5),
        rs2: bits(word, 20, 5),
        offset: signed(offset, 13),
    }))
}

/// A load.
pub fn load(word: u32) -> Option<Instr>
    requires { bits_from 0 7 word ≡ 0b0000011 }
    ensures { IsDecoding word result }
{
    Some(Instr::Load(Load {
        op: load_op(bits(word, 12, 3))?,
        rd: bits(word, 7, 5),
        rs1: bits(word, 15, 5),
        offset: signed(bits(word, 20, 12), 12),
    }))
}

/// A store.
pub fn store(word: u32) -> Option<Instr>
    requires { bits_from 0 7 word ≡ 0b0100011 }
    ensures { IsDecoding word result }
{
    let offset = (bits(word, 25, 7) << 5) + bits(word, 7, 5);
    Some(Instr::Store(Store {
        op: store_op(bits(word, 12, 3))?,
        rs1: bits(word, 15, 5),
        rs2: bits(word, 20, 5),
        offset: signed(offset, 12),
    }))
}

/// An operation on a register and an immediate: a shift by funct3 001 and 101.
pub fn op_imm(word: u32) -> Option<Instr>
    requires { bits_from 0 7 word ≡ 0b0010011 }
    ensures { IsDecoding word result }
{
    match bits(word, 12, 3) {
        0b001 | 0b101 => shift(word),
        _ => immediate(word),
    }
}

/// An operation on a register and an immediate of 12 bits.
fn immediate(word: u32) -> Option<Instr>
    requires opcode { bits_from 0 7 word ≡ 0b0010011 }
    requires not_sll { bits_from 12 3 word ≢ 0b001 }
    requires not_right { bits_from 12 3 word ≢ 0b101 }
    ensures { IsDecoding word result }
{
    Some(Instr::OpImm(OpImm {
        op: immediate_op(bits(word, 12, 3))?,
        rd: bits(word, 7, 5),
        rs1: bits(word, 15, 5),
        imm: signed(bits(word, 20, 12), 12),
    }))
}

/// A shift by an amount of 5 bits, with its funct7 above.
fn shift(word: u32) -> Option<Instr>
    requires opcode { bits_from 0 7 word ≡ 0b0010011 }
    requires shifts { (bits_from 12 3 word ≡ 0b001) ⊎ (bits_from 12 3 word ≡ 0b101) }
    ensures { IsDecoding word result }
{
    Some(Instr::OpImm(OpImm {
        op: shift_op(bits(word, 12, 3), bits(word, 25, 7))?,
        rd: bits(word, 7, 5),
        rs1: bits(word, 15, 5),
        imm: bits(word, 20, 5) as i32,
    }))
}

/// An operation on two registers.
pub fn op(word: u32) -> Option<Instr>
    requires { bits_from 0 7 word ≡ 0b0110011 }
    ensures { IsDecoding word result }
{
    Some(Instr::Op(Op {
        op: alu_op(bits(word, 25, 7), bits(word, 12, 3))?,
        rd: bits(word, 7, 5),
        rs1: bits(word, 15, 5),
        rs2: bits(word, 20, 5),
    }))
}

/// An atomic operation on a word, whose funct7 is a funct5, aq and rl. LR has no source.
pub fn amo(word: u32) -> Option<Instr>
    requires { bits_from 0 7 word ≡ 0b0101111 }
    ensures { IsDecoding word result }
{
    if bits(word, 12, 3) != 0b010 {
        return None;
    }
    let op = amo_op(bits(word, 27, 5))?;
    let rs2 = bits(word, 20, 5);
    if matches!(op, AmoOp::Lr) && rs2 != 0 {
        return None;
    }
    Some(Instr::Amo(Amo {
        op,
        labels: Labels {
            aq: bits(word, 26, 1) == 1,
            rl: bits(word, 25, 1) == 1,
        },
        rd: bits(word, 7, 5),
        rs1: bits(word, 15, 5),
        rs2,
    }))
}

/// FENCE, with its fields as they stand.
pub fn fence(word: u32) -> Option<Instr>
    requires { bits_from 0 7 word ≡ 0b0001111 }
    ensures { IsDecoding word result }
{
    match bits(word, 12, 3) {
        0b000 => Some(Instr::Fence(Fence {
            fm: bits(word, 28, 4),
            pred: bits(word, 24, 4),
            succ: bits(word, 20, 4),
            rd: bits(word, 7, 5),
            rs1: bits(word, 15, 5),
        })),
        _ => None,
    }
}

/// ECALL and EBREAK, the only two words of their opcode that are instructions of RV32IMA.
pub fn system(word: u32) -> Option<Instr>
    requires { bits_from 0 7 word ≡ 0b1110011 }
    ensures { IsDecoding word result }
{
    match word {
        0x0000_0073 => Some(Instr::Ecall),
        0x0010_0073 => Some(Instr::Ebreak),
        _ => None,
    }
}
