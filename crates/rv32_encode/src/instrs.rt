//! The words of the instructions with operands, by the format that each has.
ghost use Rattle.std.specs.Prelude.{◌≡◌, ◌^◌, ◌<◌};
ghost use Rattle.dash_base.specs.declared.instr.Instr.TheVariants as instr;
ghost use Rattle.rv32_decode.specs.Layout.{immediate_bits, word_of};

use crate::fields::in_bits;
use crate::formats::{b_type, i_type, j_type, r_type, s_type};
use crate::tables::{alu_funct3, alu_funct7, amo_funct5, branch_funct3, load_funct3, store_funct3};
use dash_base::{AluOp, Amo, Branch, Fence, Jal, Jalr, Load, Op, OpImm, Store};

/// JAL.
pub fn jal(i: &Jal) -> u32
    ensures { result ≡ word_of (instr.Jal i.now) }
{
    j_type(in_bits(i.offset, 21), i.rd, 0b1101111)
}

/// JALR.
pub fn jalr(i: &Jalr) -> u32
    ensures { result ≡ word_of (instr.Jalr i.now) }
{
    i_type(in_bits(i.offset, 12), i.rs1, 0b000, i.rd, 0b1100111)
}

/// A branch.
pub fn branch(i: &Branch) -> u32
    ensures { result ≡ word_of (instr.Branch i.now) }
{
    let offset = in_bits(i.offset, 13);
    b_type(offset, i.rs2, i.rs1, branch_funct3(i.op), 0b1100011)
}

/// A load.
pub fn load(i: &Load) -> u32
    ensures { result ≡ word_of (instr.Load i.now) }
{
    let offset = in_bits(i.offset, 12);
    i_type(offset, i.rs1, load_funct3(i.op), i.rd, 0b0000011)
}

/// A store.
pub fn store(i: &Store) -> u32
    ensures { result ≡ word_of (instr.Store i.now) }
{
    let offset = in_bits(i.offset, 12);
    s_type(offset, i.rs2, i.rs1, store_funct3(i.op), 0b0100011)
}

/// An operation on a register and an immediate.
pub fn op_imm(i: &OpImm) -> u32
    ensures { result ≡ word_of (instr.OpImm i.now) }
{
    i_type(immediate(i), i.rs1, alu_funct3(i.op), i.rd, 0b0010011)
}

/// The immediate's bits: of a shift its amount, with the funct7 above.
fn immediate(i: &OpImm) -> u32
    ensures value { result ≡ immediate_bits i.now.op i.now.imm }
    ensures small { result < 2 ^ 12 }
{
    match i.op {
        AluOp::Sll | AluOp::Srl | AluOp::Sra => (alu_funct7(i.op) << 5) + i.imm as u32,
        _ => in_bits(i.imm, 12),
    }
}

/// An operation on two registers.
pub fn op(i: &Op) -> u32
    ensures { result ≡ word_of (instr.Op i.now) }
{
    r_type(
        alu_funct7(i.op),
        i.rs2,
        i.rs1,
        alu_funct3(i.op),
        i.rd,
        0b0110011,
    )
}

/// An atomic operation on a word, whose funct7 is a funct5, aq and rl.
pub fn amo(i: &Amo) -> u32
    ensures { result ≡ word_of (instr.Amo i.now) }
{
    let aq = u32::from(i.labels.aq);
    let rl = u32::from(i.labels.rl);
    let funct7 = (amo_funct5(i.op) << 2) + (aq << 1) + rl;
    r_type(funct7, i.rs2, i.rs1, 0b010, i.rd, 0b0101111)
}

/// FENCE, with its fields as they stand.
pub fn fence(i: &Fence) -> u32
    ensures { result ≡ word_of (instr.Fence i.now) }
{
    let fields = (i.fm << 8) + (i.pred << 4) + i.succ;
    i_type(fields, i.rs1, 0b000, i.rd, 0b0001111)
}
