//! Arithmetic on words: operations, the conditions of branches, and atomic operations.
#![tactic(auto)]

ghost use Rattle.std.specs.Prelude.{◌≡◌, IsTrue};
ghost use Rattle.rv32_alu.specs.Arithmetic.{alu_value, is_amo, amo_value, is_taken};

pub use dash_base::{AluOp, AmoOp, BranchOp};
use product::{mulh, mulhsu, mulhu};
use quotient::{div, divu, rem, remu};

pub mod laws;
mod product;
mod quotient;

/// The value of an operation on two words. Sums and products wrap, and shifts use the low five bits
/// of `b`.
pub fn alu(op: AluOp, a: u32, b: u32) -> u32
    ensures { result ≡ alu_value op a b }
{
    match op {
        AluOp::Add => a.wrapping_add(b),
        AluOp::Sub => a.wrapping_sub(b),
        AluOp::Sll => a.wrapping_shl(b),
        AluOp::Slt => u32::from(a.cast_signed() < b.cast_signed()),
        AluOp::Sltu => u32::from(a < b),
        AluOp::Xor => a ^ b,
        AluOp::Srl => a.wrapping_shr(b),
        AluOp::Sra => a.cast_signed().wrapping_shr(b).cast_unsigned(),
        AluOp::Or => a | b,
        AluOp::And => a & b,
        AluOp::Mul => a.wrapping_mul(b),
        AluOp::Mulh => mulh(a, b),
        AluOp::Mulhsu => mulhsu(a, b),
        AluOp::Mulhu => mulhu(a, b),
        AluOp::Div => div(a, b),
        AluOp::Divu => divu(a, b),
        AluOp::Rem => rem(a, b),
        AluOp::Remu => remu(a, b),
    }
}

/// Whether a branch on two words is taken.
pub fn branch(op: BranchOp, a: u32, b: u32) -> bool
    ensures { result ≡ is_taken op a b }
{
    match op {
        BranchOp::Beq => a == b,
        BranchOp::Bne => a != b,
        BranchOp::Blt => a.cast_signed() < b.cast_signed(),
        BranchOp::Bge => a.cast_signed() >= b.cast_signed(),
        BranchOp::Bltu => a < b,
        BranchOp::Bgeu => a >= b,
    }
}

/// The word that an atomic operation other than LR and SC leaves, from the one that it found.
pub fn amo_value(op: AmoOp, old: u32, operand: u32) -> u32
    requires { IsTrue (is_amo op) }
    ensures { result ≡ amo_value op old operand }
{
    match op {
        AmoOp::Swap => operand,
        AmoOp::Add => old.wrapping_add(operand),
        AmoOp::Xor => old ^ operand,
        AmoOp::And => old & operand,
        AmoOp::Or => old | operand,
        AmoOp::Min => old.cast_signed().min(operand.cast_signed()).cast_unsigned(),
        AmoOp::Max => old.cast_signed().max(operand.cast_signed()).cast_unsigned(),
        AmoOp::Minu => old.min(operand),
        AmoOp::Maxu => old.max(operand),
        _ => unreachable!(),
    }
}
