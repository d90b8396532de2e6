//! Instructions with an immediate of twelve bits.
ghost use Rattle.std.specs.Prelude.{◌≡◌, IsTrue, pos, neg_ℤ, ◌≤ℤ◌};
ghost use Rattle.dash_base.specs.Ranges.{has_immediate};
ghost use Rattle.rv32_decode.specs.Layout.{is_shift};
ghost use Rattle.rv32_asm.specs.Rows.{jalr_row, load_row, store_row, immediate_of, immediate_row, prefetch_row, kind_bits, least_of, greatest_of};

use crate::fields::{number_field, place_field, register_field, worst};
use crate::refusal::AsmCause;
use crate::said::said;
use crate::statement::Statement;
use asm_words::{Operands, has_immediate};
use dash_base::{AluOp, Instr, Jalr, Load, LoadOp, OpImm, Store, StoreOp};
use rv32_decode::HintKind;
use rv32_encode::encode;

#[tactic(auto, unfolding(crate::specs::Rows::jalr_row))]
pub fn jalr_row<'a>(operands: &Operands<'a>) -> Result<Statement<'a>, AsmCause>
    ensures { result ≡ jalr_row operands.now }
{
    let Operands::Two(a, b) = operands else {
        return Err(AsmCause::Shape);
    };
    let rd = register_field(a.bytes());
    let place = place_field(-2048, 2047, 1, b.bytes());
    let instr = Instr::Jalr(Jalr {
        rd: rd.register.number(),
        rs1: place.base.number(),
        offset: place.offset as i32,
    });
    said(worst(rd.fault, place.fault), Statement::Put(encode(&instr)))
}

#[tactic(auto, unfolding(crate::specs::Rows::load_row))]
pub fn load_row<'a>(op: LoadOp, operands: &Operands<'a>) -> Result<Statement<'a>, AsmCause>
    ensures { result ≡ load_row op operands.now }
{
    let Operands::Two(a, b) = operands else {
        return Err(AsmCause::Shape);
    };
    let rd = register_field(a.bytes());
    let place = place_field(-2048, 2047, 1, b.bytes());
    let instr = Instr::Load(Load {
        op,
        rd: rd.register.number(),
        rs1: place.base.number(),
        offset: place.offset as i32,
    });
    said(worst(rd.fault, place.fault), Statement::Put(encode(&instr)))
}

#[tactic(auto, unfolding(crate::specs::Rows::store_row))]
pub fn store_row<'a>(op: StoreOp, operands: &Operands<'a>) -> Result<Statement<'a>, AsmCause>
    ensures { result ≡ store_row op operands.now }
{
    let Operands::Two(a, b) = operands else {
        return Err(AsmCause::Shape);
    };
    let rs2 = register_field(a.bytes());
    let place = place_field(-2048, 2047, 1, b.bytes());
    let instr = Instr::Store(Store {
        op,
        rs2: rs2.register.number(),
        rs1: place.base.number(),
        offset: place.offset as i32,
    });
    said(
        worst(rs2.fault, place.fault),
        Statement::Put(encode(&instr)),
    )
}

#[tactic(auto, unfolding(crate::specs::Rows::immediate_row))]
pub fn immediate_row<'a>(op: AluOp, operands: &Operands<'a>) -> Result<Statement<'a>, AsmCause>
    ensures { result ≡ immediate_row op operands.now }
{
    let Operands::Three(a, b, c) = operands else {
        return Err(AsmCause::Shape);
    };
    if has_immediate(op) {
        immediate_of(op, a.bytes(), b.bytes(), c.bytes())
    } else {
        Err(AsmCause::Shape)
    }
}

#[tactic(auto, unfolding(crate::specs::Rows::immediate_of))]
fn immediate_of<'a>(
    op: AluOp,
    a: &'a [u8],
    b: &'a [u8],
    c: &'a [u8],
) -> Result<Statement<'a>, AsmCause>
    requires { IsTrue (has_immediate op) }
    ensures { result ≡ immediate_of op a.now b.now c.now }
{
    let rd = register_field(a);
    let rs1 = register_field(b);
    let imm = number_field(least_of(op), greatest_of(op), 1, c);
    let fault = worst(worst(rd.fault, rs1.fault), imm.fault);
    let instr = Instr::OpImm(OpImm {
        op,
        rd: rd.register.number(),
        rs1: rs1.register.number(),
        imm: small(imm.value),
    });
    said(fault, Statement::Put(encode(&instr)))
}

/// The same number.
fn small(value: i64) -> i32
    requires low { neg_ℤ (pos 2048) ≤ℤ value }
    requires high { value ≤ℤ pos 2047 }
    ensures { result ≡ value }
{
    value as i32
}

fn is_shift(op: AluOp) -> bool
    ensures { result ≡ is_shift op }
{
    matches!(op, AluOp::Sll | AluOp::Srl | AluOp::Sra)
}

fn least_of(op: AluOp) -> i64
    ensures value { result ≡ least_of op }
    ensures low { neg_ℤ (pos 2048) ≤ℤ result }
    ensures high { result ≤ℤ pos 0 }
{
    if is_shift(op) { 0 } else { -2048 }
}

fn greatest_of(op: AluOp) -> i64
    ensures value { result ≡ greatest_of op }
    ensures low { pos 0 ≤ℤ result }
    ensures high { result ≤ℤ pos 2047 }
{
    if is_shift(op) { 31 } else { 2047 }
}

#[tactic(auto, unfolding(crate::specs::Rows::prefetch_row))]
pub fn prefetch_row<'a>(kind: HintKind, operands: &Operands<'a>) -> Result<Statement<'a>, AsmCause>
    ensures { result ≡ prefetch_row kind operands.now }
{
    let Operands::One(a) = operands else {
        return Err(AsmCause::Shape);
    };
    let place = place_field(-2048, 2016, 32, a.bytes());
    let instr = Instr::OpImm(OpImm {
        op: AluOp::Or,
        rd: 0,
        rs1: place.base.number(),
        imm: place.offset as i32 + kind_bits(kind),
    });
    said(place.fault, Statement::Put(encode(&instr)))
}

/// The low five bits of a prefetch's immediate.
fn kind_bits(kind: HintKind) -> i32
    ensures { result ≡ pos (kind_bits kind) }
{
    match kind {
        HintKind::Fetch => 0,
        HintKind::Shared => 1,
        HintKind::Exclusive => 3,
    }
}
