//! The funct3, funct5 and funct7 of the operations.
ghost use Rattle.std.specs.Prelude.{◌≡◌, ◌^◌, ◌<◌};
ghost use Rattle.rv32_decode.specs.Layout.{alu_funct3, alu_funct7, amo_funct5};
ghost use Rattle.rv32_decode.specs.Layout.{branch_funct3, load_funct3, store_funct3};

use dash_base::{AluOp, AmoOp, BranchOp, LoadOp, StoreOp};

/// The condition of a branch.
pub fn branch_funct3(op: BranchOp) -> u32
    ensures value { result ≡ branch_funct3 op }
    ensures small { result < 2 ^ 3 }
{
    match op {
        BranchOp::Beq => 0b000,
        BranchOp::Bne => 0b001,
        BranchOp::Blt => 0b100,
        BranchOp::Bge => 0b101,
        BranchOp::Bltu => 0b110,
        BranchOp::Bgeu => 0b111,
    }
}

/// The size of a load, and whether it is signed.
pub fn load_funct3(op: LoadOp) -> u32
    ensures value { result ≡ load_funct3 op }
    ensures small { result < 2 ^ 3 }
{
    match op {
        LoadOp::Lb => 0b000,
        LoadOp::Lh => 0b001,
        LoadOp::Lw => 0b010,
        LoadOp::Lbu => 0b100,
        LoadOp::Lhu => 0b101,
    }
}

/// The size of a store.
pub fn store_funct3(op: StoreOp) -> u32
    ensures value { result ≡ store_funct3 op }
    ensures small { result < 2 ^ 3 }
{
    match op {
        StoreOp::Sb => 0b000,
        StoreOp::Sh => 0b001,
        StoreOp::Sw => 0b010,
    }
}

/// The lower part of an operation's code.
pub fn alu_funct3(op: AluOp) -> u32
    ensures value { result ≡ alu_funct3 op }
    ensures small { result < 2 ^ 3 }
{
    match op {
        AluOp::Add | AluOp::Sub | AluOp::Mul => 0b000,
        AluOp::Sll | AluOp::Mulh => 0b001,
        AluOp::Slt | AluOp::Mulhsu => 0b010,
        AluOp::Sltu | AluOp::Mulhu => 0b011,
        AluOp::Xor | AluOp::Div => 0b100,
        AluOp::Srl | AluOp::Sra | AluOp::Divu => 0b101,
        AluOp::Or | AluOp::Rem => 0b110,
        AluOp::And | AluOp::Remu => 0b111,
    }
}

/// The upper part of an operation's code.
pub fn alu_funct7(op: AluOp) -> u32
    ensures value { result ≡ alu_funct7 op }
    ensures small { result < 2 ^ 7 }
{
    match op {
        AluOp::Sub | AluOp::Sra => 0b0100000,
        AluOp::Mul | AluOp::Mulh | AluOp::Mulhsu | AluOp::Mulhu => 0b0000001,
        AluOp::Div | AluOp::Divu | AluOp::Rem | AluOp::Remu => 0b0000001,
        _ => 0b0000000,
    }
}

/// An atomic operation.
pub fn amo_funct5(op: AmoOp) -> u32
    ensures value { result ≡ amo_funct5 op }
    ensures small { result < 2 ^ 5 }
{
    match op {
        AmoOp::Lr => 0b00010,
        AmoOp::Sc => 0b00011,
        AmoOp::Swap => 0b00001,
        AmoOp::Add => 0b00000,
        AmoOp::Xor => 0b00100,
        AmoOp::And => 0b01100,
        AmoOp::Or => 0b01000,
        AmoOp::Min => 0b10000,
        AmoOp::Max => 0b10100,
        AmoOp::Minu => 0b11000,
        AmoOp::Maxu => 0b11100,
    }
}
