//! The instructions that the program is written in, with their operands in the order of assembly.
ghost use Rattle.std.specs.Prelude.{◌≡◌, ◌<◌, ◌%◌, ◌^◌};
ghost use Rattle.dash_base.specs.Ranges.{FitsBits, FitsOffset};
ghost use Rattle.rv32_decode.specs.Layout.{in_bits, word_of};
ghost use Rattle.workload_gen.specs.Program.{add, addi, amoswap_aq, amoswap_rl, andi, bne, lui, lw, mul, slli, srli, sw, upper_part};

use dash_base::{
    AluOp, Amo, AmoOp, Branch, BranchOp, Instr, Labels, Load, LoadOp, Op, OpImm, Store, StoreOp,
    Upper,
};

/// The first instruction of a number into a register, LUI.
pub fn li_upper(rd: u32, value: u32) -> Instr
    requires { rd < 32 }
    ensures { word_of result ≡ lui rd (upper_part value) }
{
    Instr::Lui(Upper {
        rd,
        imm: upper_part(value),
    })
}

/// The second, ADDI.
pub fn li_lower(rd: u32, value: u32) -> Instr
    requires { rd < 32 }
    ensures { word_of result ≡ addi rd rd (value % 4096) }
{
    addi(rd, rd, lower_part(value))
}

/// The number whose upper 20 bits LUI is to give, so that the lower 12 can be added as a signed number.
fn upper_part(value: u32) -> u32
    ensures value { result ≡ upper_part value }
    ensures upper { result % 2 ^ 12 ≡ 0 }
{
    value.wrapping_add(2048) / 4096 * 4096
}

/// The lower 12 bits as a signed number.
fn lower_part(value: u32) -> i32
    ensures bits { in_bits 12 result ≡ value % 4096 }
    ensures fits { FitsBits 12 result }
{
    let low = (value % 4096) as i32;
    if low < 2048 { low } else { low - 4096 }
}

pub fn addi(rd: u32, rs1: u32, imm: i32) -> Instr
    requires rd { rd < 32 }
    requires rs1 { rs1 < 32 }
    requires imm { FitsBits 12 imm }
    ensures { word_of result ≡ addi rd rs1 (in_bits 12 imm) }
{
    Instr::OpImm(OpImm {
        op: AluOp::Add,
        rd,
        rs1,
        imm,
    })
}

pub fn andi(rd: u32, rs1: u32, imm: i32) -> Instr
    requires rd { rd < 32 }
    requires rs1 { rs1 < 32 }
    requires imm { FitsBits 12 imm }
    ensures { word_of result ≡ andi rd rs1 (in_bits 12 imm) }
{
    Instr::OpImm(OpImm {
        op: AluOp::And,
        rd,
        rs1,
        imm,
    })
}

pub fn slli(rd: u32, rs1: u32, amount: u32) -> Instr
    requires rd { rd < 32 }
    requires rs1 { rs1 < 32 }
    requires amount { amount < 32 }
    ensures { word_of result ≡ slli rd rs1 amount }
{
    Instr::OpImm(OpImm {
        op: AluOp::Sll,
        rd,
        rs1,
        imm: amount as i32,
    })
}

pub fn srli(rd: u32, rs1: u32, amount: u32) -> Instr
    requires rd { rd < 32 }
    requires rs1 { rs1 < 32 }
    requires amount { amount < 32 }
    ensures { word_of result ≡ srli rd rs1 amount }
{
    Instr::OpImm(OpImm {
        op: AluOp::Srl,
        rd,
        rs1,
        imm: amount as i32,
    })
}

pub fn add(rd: u32, rs1: u32, rs2: u32) -> Instr
    requires rd { rd < 32 }
    requires rs1 { rs1 < 32 }
    requires rs2 { rs2 < 32 }
    ensures { word_of result ≡ add rd rs1 rs2 }
{
    Instr::Op(Op {
        op: AluOp::Add,
        rd,
        rs1,
        rs2,
    })
}

pub fn mul(rd: u32, rs1: u32, rs2: u32) -> Instr
    requires rd { rd < 32 }
    requires rs1 { rs1 < 32 }
    requires rs2 { rs2 < 32 }
    ensures { word_of result ≡ mul rd rs1 rs2 }
{
    Instr::Op(Op {
        op: AluOp::Mul,
        rd,
        rs1,
        rs2,
    })
}

/// The word at the address in `rs1`.
pub fn lw(rd: u32, rs1: u32) -> Instr
    requires rd { rd < 32 }
    requires rs1 { rs1 < 32 }
    ensures { word_of result ≡ lw rd 0 rs1 }
{
    Instr::Load(Load {
        op: LoadOp::Lw,
        rd,
        rs1,
        offset: 0,
    })
}

/// The word in `rs2` to the address in `rs1`.
pub fn sw(rs2: u32, rs1: u32) -> Instr
    requires rs2 { rs2 < 32 }
    requires rs1 { rs1 < 32 }
    ensures { word_of result ≡ sw rs2 0 rs1 }
{
    Instr::Store(Store {
        op: StoreOp::Sw,
        rs1,
        rs2,
        offset: 0,
    })
}

/// A swap that is an acquire. At a lock word it asks.
pub fn amoswap_aq(rd: u32, rs2: u32, rs1: u32) -> Instr
    requires rd { rd < 32 }
    requires rs2 { rs2 < 32 }
    requires rs1 { rs1 < 32 }
    ensures { word_of result ≡ amoswap_aq rd rs2 rs1 }
{
    let labels = Labels {
        aq: true,
        rl: false,
    };
    Instr::Amo(Amo {
        op: AmoOp::Swap,
        labels,
        rd,
        rs1,
        rs2,
    })
}

/// A swap that is a release. At a lock word it unlocks.
pub fn amoswap_rl(rd: u32, rs2: u32, rs1: u32) -> Instr
    requires rd { rd < 32 }
    requires rs2 { rs2 < 32 }
    requires rs1 { rs1 < 32 }
    ensures { word_of result ≡ amoswap_rl rd rs2 rs1 }
{
    let labels = Labels {
        aq: false,
        rl: true,
    };
    Instr::Amo(Amo {
        op: AmoOp::Swap,
        labels,
        rd,
        rs1,
        rs2,
    })
}

pub fn bne(rs1: u32, rs2: u32, offset: i32) -> Instr
    requires rs1 { rs1 < 32 }
    requires rs2 { rs2 < 32 }
    requires offset { FitsOffset 13 offset }
    ensures { word_of result ≡ bne rs1 rs2 (in_bits 13 offset) }
{
    Instr::Branch(Branch {
        op: BranchOp::Bne,
        rs1,
        rs2,
        offset,
    })
}
