//! What a line says by its mnemonic or directive and its operands.
ghost use Rattle.std.specs.Prelude.{◌≡◌, ◌≤ℤ◌, ◌<ℤ◌, pos, neg_ℤ, IsTrue};
ghost use Rattle.dash_base.specs.Ranges.{has_immediate};
ghost use Rattle.rv32_asm.specs.Rows.{said, upper_row, row_of, registers_row, fence_of, fence_row, alone_row, pair_row, address_row, move_row, segment_row, word_row, space_row, entry_row};
ghost use Rattle.rv32_decode.specs.Layout.{in_bits};

use crate::atomics::atomic_row;
use crate::fields::{number_field, register_field, worst};
use crate::immediates::{immediate_row, jalr_row, load_row, prefetch_row, store_row};
use crate::jumps::{branch_row, jal_row, jump_row};
use crate::refusal::AsmCause;
use crate::said::said;
use crate::statement::Statement;
use asm_words::{Mnemonic, Operands, fence_set, is_name};
use dash_base::{AluOp, Fence, Instr, Op, OpImm, Upper};
use rv32_encode::encode;

/// What a line says by its mnemonic or directive.
pub fn row<'a>(mnemonic: Mnemonic, operands: Operands<'a>) -> Result<Statement<'a>, AsmCause>
    ensures { result ≡ row_of mnemonic operands.entry }
{
    match mnemonic {
        Mnemonic::Lui => lui_row(&operands),
        Mnemonic::Auipc => auipc_row(&operands),
        Mnemonic::Jal => jal_row(operands),
        Mnemonic::Jalr => jalr_row(&operands),
        Mnemonic::Branch(op) => branch_row(op, operands),
        Mnemonic::Load(op) => load_row(op, &operands),
        Mnemonic::Store(op) => store_row(op, &operands),
        Mnemonic::Immediate(op) => immediate_row(op, &operands),
        Mnemonic::Registers(op) => registers_row(op, &operands),
        Mnemonic::Atomic(op, labels) => atomic_row(op, labels, &operands),
        Mnemonic::Fence => fence_row(&operands),
        Mnemonic::Ecall => alone_row(0x0000_0073, &operands),
        Mnemonic::Ebreak => alone_row(0x0010_0073, &operands),
        Mnemonic::Prefetch(kind) => prefetch_row(kind, &operands),
        Mnemonic::LoadImmediate => pair_row(&operands),
        Mnemonic::LoadAddress => address_row(operands),
        Mnemonic::Jump => jump_row(operands),
        Mnemonic::Nop => alone_row(0x0000_0013, &operands),
        Mnemonic::Move => move_row(&operands),
        Mnemonic::Text => segment_row(5, &operands),
        Mnemonic::Data => segment_row(6, &operands),
        Mnemonic::Word => word_row(operands),
        Mnemonic::Space => space_row(&operands),
        Mnemonic::Entry => entry_row(operands),
    }
}

#[tactic(auto, unfolding(crate::specs::Rows::upper_row))]
fn lui_row<'a>(operands: &Operands<'a>) -> Result<Statement<'a>, AsmCause>
    ensures { result ≡ upper_row 0b0110111 operands.now }
{
    let Operands::Two(a, b) = operands else {
        return Err(AsmCause::Shape);
    };
    let rd = register_field(a.bytes());
    let number = number_field(0, 1048575, 1, b.bytes());
    let instr = Instr::Lui(Upper {
        rd: rd.register.number(),
        imm: 4096 * number.value as u32,
    });
    said(
        worst(rd.fault, number.fault),
        Statement::Put(encode(&instr)),
    )
}

#[tactic(auto, unfolding(crate::specs::Rows::upper_row))]
fn auipc_row<'a>(operands: &Operands<'a>) -> Result<Statement<'a>, AsmCause>
    ensures { result ≡ upper_row 0b0010111 operands.now }
{
    let Operands::Two(a, b) = operands else {
        return Err(AsmCause::Shape);
    };
    let rd = register_field(a.bytes());
    let number = number_field(0, 1048575, 1, b.bytes());
    let instr = Instr::Auipc(Upper {
        rd: rd.register.number(),
        imm: 4096 * number.value as u32,
    });
    said(
        worst(rd.fault, number.fault),
        Statement::Put(encode(&instr)),
    )
}

#[tactic(auto, unfolding(crate::specs::Rows::registers_row))]
fn registers_row<'a>(op: AluOp, operands: &Operands<'a>) -> Result<Statement<'a>, AsmCause>
    ensures { result ≡ registers_row op operands.now }
{
    let Operands::Three(a, b, c) = operands else {
        return Err(AsmCause::Shape);
    };
    let rd = register_field(a.bytes());
    let rs1 = register_field(b.bytes());
    let rs2 = register_field(c.bytes());
    let fault = worst(worst(rd.fault, rs1.fault), rs2.fault);
    let instr = Instr::Op(Op {
        op,
        rd: rd.register.number(),
        rs1: rs1.register.number(),
        rs2: rs2.register.number(),
    });
    said(fault, Statement::Put(encode(&instr)))
}

#[tactic(auto, unfolding(crate::specs::Rows::fence_row))]
fn fence_row<'a>(operands: &Operands<'a>) -> Result<Statement<'a>, AsmCause>
    ensures { result ≡ fence_row operands.now }
{
    let Operands::Two(a, b) = operands else {
        return Err(AsmCause::Shape);
    };
    let Some(pred) = fence_set(a.bytes()) else {
        return Err(AsmCause::Shape);
    };
    let Some(succ) = fence_set(b.bytes()) else {
        return Err(AsmCause::Shape);
    };
    let instr = Instr::Fence(Fence {
        fm: 0,
        pred,
        succ,
        rd: 0,
        rs1: 0,
    });
    Ok(Statement::Put(encode(&instr)))
}

#[tactic(auto, unfolding(crate::specs::Rows::alone_row))]
fn alone_row<'a>(word: u32, operands: &Operands<'a>) -> Result<Statement<'a>, AsmCause>
    ensures { result ≡ alone_row word operands.now }
{
    match operands {
        Operands::Nothing => Ok(Statement::Put(word)),
        _ => Err(AsmCause::Shape),
    }
}

#[tactic(auto, unfolding(crate::specs::Rows::pair_row))]
fn pair_row<'a>(operands: &Operands<'a>) -> Result<Statement<'a>, AsmCause>
    ensures { result ≡ pair_row operands.now }
{
    let Operands::Two(a, b) = operands else {
        return Err(AsmCause::Shape);
    };
    let rd = register_field(a.bytes());
    let number = number_field(-2147483648, 4294967295, 1, b.bytes());
    let fault = worst(rd.fault, number.fault);
    said(fault, Statement::Pair(rd.register, word_of(number.value)))
}

/// A number modulo 2^32.
fn word_of(value: i64) -> u32
    requires low { neg_ℤ (pos 2147483648) ≤ℤ value }
    requires high { value ≤ℤ pos 4294967295 }
    ensures { result ≡ in_bits 32 value }
{
    if value < 0 {
        (value + 4294967296) as u32
    } else {
        value as u32
    }
}

#[tactic(auto, unfolding(crate::specs::Rows::address_row))]
fn address_row<'a>(operands: Operands<'a>) -> Result<Statement<'a>, AsmCause>
    ensures { result ≡ address_row operands.entry }
{
    let Operands::Two(a, b) = operands else {
        return Err(AsmCause::Shape);
    };
    if !is_name(b.bytes()) {
        return Err(AsmCause::Shape);
    }
    let rd = register_field(a.bytes());
    said(rd.fault, Statement::PairAddress(rd.register, b))
}

#[tactic(auto, unfolding(crate::specs::Rows::move_row))]
fn move_row<'a>(operands: &Operands<'a>) -> Result<Statement<'a>, AsmCause>
    ensures { result ≡ move_row operands.now }
{
    let Operands::Two(a, b) = operands else {
        return Err(AsmCause::Shape);
    };
    let rd = register_field(a.bytes());
    let rs1 = register_field(b.bytes());
    let instr = Instr::OpImm(OpImm {
        op: AluOp::Add,
        rd: rd.register.number(),
        rs1: rs1.register.number(),
        imm: 0,
    });
    said(worst(rd.fault, rs1.fault), Statement::Put(encode(&instr)))
}

#[tactic(auto, unfolding(crate::specs::Rows::segment_row))]
fn segment_row<'a>(flags: u32, operands: &Operands<'a>) -> Result<Statement<'a>, AsmCause>
    ensures { result ≡ segment_row flags operands.now }
{
    let Operands::One(a) = operands else {
        return Err(AsmCause::Shape);
    };
    let number = number_field(0, 4294967295, 4, a.bytes());
    said(number.fault, Statement::Segment(number.value as u32, flags))
}

#[tactic(auto, unfolding(crate::specs::Rows::word_row))]
fn word_row<'a>(operands: Operands<'a>) -> Result<Statement<'a>, AsmCause>
    ensures { result ≡ word_row operands.entry }
{
    let Operands::One(a) = operands else {
        return Err(AsmCause::Shape);
    };
    if is_name(a.bytes()) {
        return Ok(Statement::PutAddress(a));
    }
    let number = number_field(-2147483648, 4294967295, 1, a.bytes());
    said(number.fault, Statement::Put(word_of(number.value)))
}

#[tactic(auto, unfolding(crate::specs::Rows::space_row))]
fn space_row<'a>(operands: &Operands<'a>) -> Result<Statement<'a>, AsmCause>
    ensures { result ≡ space_row operands.now }
{
    let Operands::One(a) = operands else {
        return Err(AsmCause::Shape);
    };
    let number = number_field(0, 16777216, 4, a.bytes());
    said(number.fault, Statement::Space(number.value as u32))
}

#[tactic(auto, unfolding(crate::specs::Rows::entry_row))]
fn entry_row<'a>(operands: Operands<'a>) -> Result<Statement<'a>, AsmCause>
    ensures { result ≡ entry_row operands.entry }
{
    let Operands::One(a) = operands else {
        return Err(AsmCause::Shape);
    };
    if is_name(a.bytes()) {
        Ok(Statement::Entry(a))
    } else {
        Err(AsmCause::Shape)
    }
}
