//! Jumps and branches, by their offsets or to labels.
ghost use Rattle.std.specs.Prelude.{◌≡◌, ◌<◌};
ghost use Rattle.rv32_asm.specs.Rows.{jump_to, jal_row, jump_row, branch_to, branch_row};

use crate::fields::{number_field, register_field, worst};
use crate::refusal::AsmCause;
use crate::register::Register;
use crate::said::said;
use crate::statement::Statement;
use asm_words::{Operands, Word, is_name};
use dash_base::{Branch, BranchOp, Instr, Jal};
use rv32_encode::encode;

#[tactic(auto, unfolding(crate::specs::Rows::jal_row))]
pub fn jal_row<'a>(operands: Operands<'a>) -> Result<Statement<'a>, AsmCause>
    ensures { result ≡ jal_row operands.entry }
{
    let Operands::Two(a, b) = operands else {
        return Err(AsmCause::Shape);
    };
    let rd = register_field(a.bytes());
    jump_to(rd.register, rd.fault, b)
}

#[tactic(auto, unfolding(crate::specs::Rows::jump_row))]
pub fn jump_row<'a>(operands: Operands<'a>) -> Result<Statement<'a>, AsmCause>
    ensures { result ≡ jump_row operands.entry }
{
    let Operands::One(a) = operands else {
        return Err(AsmCause::Shape);
    };
    jump_to(Register::new(0), None, a)
}

#[tactic(auto, unfolding(crate::specs::Rows::jump_to))]
fn jump_to<'a>(
    rd: Register,
    fault: Option<AsmCause>,
    target: Word<'a>,
) -> Result<Statement<'a>, AsmCause>
    ensures { result ≡ jump_to rd fault target.entry }
{
    if is_name(target.bytes()) {
        return said(fault, Statement::Jump(rd, target));
    }
    let offset = number_field(-1048576, 1048574, 2, target.bytes());
    let instr = Instr::Jal(Jal {
        rd: rd.number(),
        offset: offset.value as i32,
    });
    said(worst(fault, offset.fault), Statement::Put(encode(&instr)))
}

#[tactic(auto, unfolding(crate::specs::Rows::branch_row))]
pub fn branch_row<'a>(op: BranchOp, operands: Operands<'a>) -> Result<Statement<'a>, AsmCause>
    ensures { result ≡ branch_row op operands.entry }
{
    let Operands::Three(a, b, c) = operands else {
        return Err(AsmCause::Shape);
    };
    let rs1 = register_field(a.bytes());
    let rs2 = register_field(b.bytes());
    let fault = worst(rs1.fault, rs2.fault);
    branch_to(op, rs1.register, rs2.register, fault, c)
}

#[tactic(auto, unfolding(crate::specs::Rows::branch_to))]
fn branch_to<'a>(
    op: BranchOp,
    rs1: Register,
    rs2: Register,
    fault: Option<AsmCause>,
    target: Word<'a>,
) -> Result<Statement<'a>, AsmCause>
    ensures { result ≡ branch_to op rs1 rs2 fault target.entry }
{
    if is_name(target.bytes()) {
        return said(fault, Statement::Branch(op, rs1, rs2, target));
    }
    let offset = number_field(-4096, 4094, 2, target.bytes());
    let instr = Instr::Branch(Branch {
        op,
        rs1: rs1.number(),
        rs2: rs2.number(),
        offset: offset.value as i32,
    });
    said(worst(fault, offset.fault), Statement::Put(encode(&instr)))
}
