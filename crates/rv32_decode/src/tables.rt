//! The operations by their funct3 and funct7.
ghost use Rattle.std.specs.Prelude.{◌≡◌, ◌≢◌, IfSome, IfNone, IsTrue, false};
ghost use Rattle.dash_base.specs.Ranges.{has_immediate};
ghost use Rattle.dash_base.specs.declared.ops.AluOp.{AluOp};
ghost use Rattle.dash_base.specs.declared.ops.AmoOp.{AmoOp};
ghost use Rattle.dash_base.specs.declared.ops.BranchOp.{BranchOp};
ghost use Rattle.dash_base.specs.declared.ops.LoadOp.{LoadOp};
ghost use Rattle.dash_base.specs.declared.ops.StoreOp.{StoreOp};
ghost use Rattle.rv32_decode.specs.Layout.{alu_funct3, alu_funct7, amo_funct5, is_shift};
ghost use Rattle.rv32_decode.specs.Layout.{branch_funct3, load_funct3, store_funct3};

use dash_base::{AluOp, AmoOp, BranchOp, LoadOp, StoreOp};

/// The condition of a branch.
pub fn branch_op(funct3: u32) -> Option<BranchOp>
    ensures some { IfSome result (λ op. branch_funct3 op ≡ funct3) }
    ensures none { IfNone result ((op : BranchOp) → branch_funct3 op ≢ funct3) }
{
    match funct3 {
        0b000 => Some(BranchOp::Beq),
        0b001 => Some(BranchOp::Bne),
        0b100 => Some(BranchOp::Blt),
        0b101 => Some(BranchOp::Bge),
        0b110 => Some(BranchOp::Bltu),
        0b111 => Some(BranchOp::Bgeu),
        _ => None,
    }
}

/// The size of a load, and whether it is signed.
pub fn load_op(funct3: u32) -> Option<LoadOp>
    ensures some { IfSome result (λ op. load_funct3 op ≡ funct3) }
    ensures none { IfNone result ((op : LoadOp) → load_funct3 op ≢ funct3) }
{
    match funct3 {
        0b000 => Some(LoadOp::Lb),
        0b001 => Some(LoadOp::Lh),
        0b010 => Some(LoadOp::Lw),
        0b100 => Some(LoadOp::Lbu),
        0b101 => Some(LoadOp::Lhu),
        _ => None,
    }
}

/// The size of a store.
pub fn store_op(funct3: u32) -> Option<StoreOp>
    ensures some { IfSome result (λ op. store_funct3 op ≡ funct3) }
    ensures none { IfNone result ((op : StoreOp) → store_funct3 op ≢ funct3) }
{
    match funct3 {
        0b000 => Some(StoreOp::Sb),
        0b001 => Some(StoreOp::Sh),
        0b010 => Some(StoreOp::Sw),
        _ => None,
    }
}

/// An operation on a register and an immediate of 12 bits.
pub fn immediate_op(funct3: u32) -> Option<AluOp>
    ensures some { IfSome result (λ op. alu_funct3 op ≡ funct3) }
    ensures form { IfSome result (λ op. IsTrue (has_immediate op)) }
    ensures wide { IfSome result (λ op. is_shift op ≡ false) }
    ensures none { IfNone result ((op : AluOp) → IsTrue (has_immediate op) → is_shift op ≡ false
        → alu_funct3 op ≢ funct3) }
{
    match funct3 {
        0b000 => Some(AluOp::Add),
        0b010 => Some(AluOp::Slt),
        0b011 => Some(AluOp::Sltu),
        0b100 => Some(AluOp::Xor),
        0b110 => Some(AluOp::Or),
        0b111 => Some(AluOp::And),
        _ => None,
    }
}

/// A shift by an immediate. Its funct7 is the upper part of the immediate.
pub fn shift_op(funct3: u32, funct7: u32) -> Option<AluOp>
    ensures funct3 { IfSome result (λ op. alu_funct3 op ≡ funct3) }
    ensures funct7 { IfSome result (λ op. alu_funct7 op ≡ funct7) }
    ensures shifts { IfSome result (λ op. IsTrue (is_shift op)) }
    ensures none { IfNone result ((op : AluOp) → IsTrue (is_shift op) → alu_funct3 op ≡ funct3
        → alu_funct7 op ≢ funct7) }
{
    match (funct3, funct7) {
        (0b001, 0b0000000) => Some(AluOp::Sll),
        (0b101, 0b0000000) => Some(AluOp::Srl),
        (0b101, 0b0100000) => Some(AluOp::Sra),
        _ => None,
    }
}

/// An operation on two registers.
pub fn alu_op(funct7: u32, funct3: u32) -> Option<AluOp>
    ensures funct7 { IfSome result (λ op. alu_funct7 op ≡ funct7) }
    ensures funct3 { IfSome result (λ op. alu_funct3 op ≡ funct3) }
    ensures none { IfNone result ((op : AluOp) → alu_funct7 op ≡ funct7 → alu_funct3 op ≢ funct3) }
{
    match (funct7, funct3) {
        (0b0000000, 0b000) => Some(AluOp::Add),
        (0b0100000, 0b000) => Some(AluOp::Sub),
        (0b0000000, 0b001) => Some(AluOp::Sll),
        (0b0000000, 0b010) => Some(AluOp::Slt),
        (0b0000000, 0b011) => Some(AluOp::Sltu),
        (0b0000000, 0b100) => Some(AluOp::Xor),
        (0b0000000, 0b101) => Some(AluOp::Srl),
        (0b0100000, 0b101) => Some(AluOp::Sra),
        (0b0000000, 0b110) => Some(AluOp::Or),
        (0b0000000, 0b111) => Some(AluOp::And),
        (0b0000001, 0b000) => Some(AluOp::Mul),
        (0b0000001, 0b001) => Some(AluOp::Mulh),
        (0b0000001, 0b010) => Some(AluOp::Mulhsu),
        (0b0000001, 0b011) => Some(AluOp::Mulhu),
        (0b0000001, 0b100) => Some(AluOp::Div),
        (0b0000001, 0b101) => Some(AluOp::Divu),
        (0b0000001, 0b110) => Some(AluOp::Rem),
        (0b0000001, 0b111) => Some(AluOp::Remu),
        _ => None,
    }
}

/// An atomic operation.
pub fn amo_op(funct5: u32) -> Option<AmoOp>
    ensures some { IfSome result (λ op. amo_funct5 op ≡ funct5) }
    ensures none { IfNone result ((op : AmoOp) → amo_funct5 op ≢ funct5) }
{
    match funct5 {
        0b00010 => Some(AmoOp::Lr),
        0b00011 => Some(AmoOp::Sc),
        0b00001 => Some(AmoOp::Swap),
        0b00000 => Some(AmoOp::Add),
        0b00100 => Some(AmoOp::Xor),
        0b01100 => Some(AmoOp::And),
        0b01000 => Some(AmoOp::Or),
        0b10000 => Some(AmoOp::Min),
        0b10100 => Some(AmoOp::Max),
        0b11000 => Some(AmoOp::Minu),
        0b11100 => Some(AmoOp::Maxu),
        _ => None,
    }
}
