//! Atomic operations.
ghost use Rattle.std.specs.Prelude.{◌≡◌, ◌≢◌};
ghost use Rattle.dash_base.specs.declared.ops.AmoOp.TheVariants.{Lr};
ghost use Rattle.rv32_asm.specs.Rows.{reserve_row, update_row, atomic_row};

use crate::fields::{bare_field, register_field, worst};
use crate::refusal::AsmCause;
use crate::said::said;
use crate::statement::Statement;
use asm_words::Operands;
use dash_base::{Amo, AmoOp, Instr, Labels};
use rv32_encode::encode;

/// An atomic operation, of which LR alone has no source.
pub fn atomic_row<'a>(
    op: AmoOp,
    labels: Labels,
    operands: &Operands<'a>,
) -> Result<Statement<'a>, AsmCause>
    ensures { result ≡ atomic_row op labels operands.now }
{
    match op {
        AmoOp::Lr => reserve_row(labels, operands),
        _ => update_row(op, labels, operands),
    }
}

#[tactic(auto, unfolding(crate::specs::Rows::reserve_row))]
fn reserve_row<'a>(labels: Labels, operands: &Operands<'a>) -> Result<Statement<'a>, AsmCause>
    ensures { result ≡ reserve_row labels operands.now }
{
    let Operands::Two(a, b) = operands else {
        return Err(AsmCause::Shape);
    };
    let rd = register_field(a.bytes());
    let base = bare_field(b.bytes());
    let instr = Instr::Amo(Amo {
        op: AmoOp::Lr,
        labels,
        rd: rd.register.number(),
        rs1: base.register.number(),
        rs2: 0,
    });
    said(worst(rd.fault, base.fault), Statement::Put(encode(&instr)))
}

#[tactic(auto, unfolding(crate::specs::Rows::update_row))]
fn update_row<'a>(
    op: AmoOp,
    labels: Labels,
    operands: &Operands<'a>,
) -> Result<Statement<'a>, AsmCause>
    requires { op ≢ Lr }
    ensures { result ≡ update_row op labels operands.now }
{
    let Operands::Three(a, b, c) = operands else {
        return Err(AsmCause::Shape);
    };
    let rd = register_field(a.bytes());
    let rs2 = register_field(b.bytes());
    let base = bare_field(c.bytes());
    let fault = worst(worst(rd.fault, rs2.fault), base.fault);
    let instr = Instr::Amo(Amo {
        op,
        labels,
        rd: rd.register.number(),
        rs1: base.register.number(),
        rs2: rs2.register.number(),
    });
    said(fault, Statement::Put(encode(&instr)))
}
