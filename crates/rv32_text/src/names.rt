//! The names of registers and operations.
ghost use Rattle.std.specs.Prelude.{◌≡◌, ◌<◌, ◌≤◌, length, IsTrue};
ghost use Rattle.dash_base.specs.Ranges.{has_immediate};
ghost use Rattle.rv32_text.specs.Names.{register, branch_name, load_name, store_name, alu_name, immediate_name, amo_name, label_suffix, prefetch_name, fence_set};

use dash_base::{AluOp, AmoOp, BranchOp, Labels, LoadOp, StoreOp};
use rv32_decode::HintKind;

/// The name of a register in the ABI.
#[tactic(auto, unfolding(crate::specs::Names::register))]
pub fn register(number: u32) -> &'static str
    requires { number < 32 }
    ensures name { result.now ≡ register number }
    ensures short { length result.now ≤ 4 }
{
    match number {
        0 => "zero",
        1 => "ra",
        2 => "sp",
        3 => "gp",
        4 => "tp",
        5 => "t0",
        6 => "t1",
        7 => "t2",
        8 => "s0",
        9 => "s1",
        10 => "a0",
        11 => "a1",
        12 => "a2",
        13 => "a3",
        14 => "a4",
        15 => "a5",
        16 => "a6",
        17 => "a7",
        18 => "s2",
        19 => "s3",
        20 => "s4",
        21 => "s5",
        22 => "s6",
        23 => "s7",
        24 => "s8",
        25 => "s9",
        26 => "s10",
        27 => "s11",
        28 => "t3",
        29 => "t4",
        30 => "t5",
        31 => "t6",
        _ => unreachable!(),
    }
}

/// The name of a branch.
pub fn branch_name(op: BranchOp) -> &'static str
    ensures name { result.now ≡ branch_name op }
    ensures short { length result.now ≤ 4 }
{
    match op {
        BranchOp::Beq => "beq",
        BranchOp::Bne => "bne",
        BranchOp::Blt => "blt",
        BranchOp::Bge => "bge",
        BranchOp::Bltu => "bltu",
        BranchOp::Bgeu => "bgeu",
    }
}

/// The name of a load.
pub fn load_name(op: LoadOp) -> &'static str
    ensures name { result.now ≡ load_name op }
    ensures short { length result.now ≤ 3 }
{
    match op {
        LoadOp::Lb => "lb",
        LoadOp::Lh => "lh",
        LoadOp::Lw => "lw",
        LoadOp::Lbu => "lbu",
        LoadOp::Lhu => "lhu",
    }
}

/// The name of a store.
pub fn store_name(op: StoreOp) -> &'static str
    ensures name { result.now ≡ store_name op }
    ensures short { length result.now ≤ 2 }
{
    match op {
        StoreOp::Sb => "sb",
        StoreOp::Sh => "sh",
        StoreOp::Sw => "sw",
    }
}

/// The name of an operation on two registers.
pub fn alu_name(op: AluOp) -> &'static str
    ensures name { result.now ≡ alu_name op }
    ensures short { length result.now ≤ 6 }
{
    match op {
        AluOp::Add => "add",
        AluOp::Sub => "sub",
        AluOp::Sll => "sll",
        AluOp::Slt => "slt",
        AluOp::Sltu => "sltu",
        AluOp::Xor => "xor",
        AluOp::Srl => "srl",
        AluOp::Sra => "sra",
        AluOp::Or => "or",
        AluOp::And => "and",
        AluOp::Mul => "mul",
        AluOp::Mulh => "mulh",
        AluOp::Mulhsu => "mulhsu",
        AluOp::Mulhu => "mulhu",
        AluOp::Div => "div",
        AluOp::Divu => "divu",
        AluOp::Rem => "rem",
        AluOp::Remu => "remu",
    }
}

/// The name of an operation on a register and an immediate.
pub fn immediate_name(op: AluOp) -> &'static str
    requires { IsTrue (has_immediate op) }
    ensures name { result.now ≡ immediate_name op }
    ensures short { length result.now ≤ 5 }
{
    match op {
        AluOp::Add => "addi",
        AluOp::Slt => "slti",
        AluOp::Sltu => "sltiu",
        AluOp::Xor => "xori",
        AluOp::Or => "ori",
        AluOp::And => "andi",
        AluOp::Sll => "slli",
        AluOp::Srl => "srli",
        AluOp::Sra => "srai",
        _ => unreachable!(),
    }
}

/// The name of an atomic operation, with its width and without its labels.
pub fn amo_name(op: AmoOp) -> &'static str
    ensures name { result.now ≡ amo_name op }
    ensures short { length result.now ≤ 9 }
{
    match op {
        AmoOp::Lr => "lr.w",
        AmoOp::Sc => "sc.w",
        AmoOp::Swap => "amoswap.w",
        AmoOp::Add => "amoadd.w",
        AmoOp::Xor => "amoxor.w",
        AmoOp::And => "amoand.w",
        AmoOp::Or => "amoor.w",
        AmoOp::Min => "amomin.w",
        AmoOp::Max => "amomax.w",
        AmoOp::Minu => "amominu.w",
        AmoOp::Maxu => "amomaxu.w",
    }
}

/// The end of an atomic operation's name.
pub fn label_suffix(labels: Labels) -> &'static str
    ensures name { result.now ≡ label_suffix labels.aq labels.rl }
    ensures short { length result.now ≤ 5 }
{
    match (labels.aq, labels.rl) {
        (false, false) => "",
        (true, false) => ".aq",
        (false, true) => ".rl",
        (true, true) => ".aqrl",
    }
}

/// The name of a prefetch.
pub fn prefetch_name(kind: HintKind) -> &'static str
    ensures name { result.now ≡ prefetch_name kind }
    ensures short { length result.now ≤ 10 }
{
    match kind {
        HintKind::Fetch => "prefetch.i",
        HintKind::Shared => "prefetch.r",
        HintKind::Exclusive => "prefetch.w",
    }
}

/// What a fence orders: a letter for each bit of a set of four.
#[tactic(auto, unfolding(crate::specs::Names::fence_set))]
pub fn fence_set(set: u32) -> &'static str
    requires { set < 16 }
    ensures name { result.now ≡ fence_set set }
    ensures short { length result.now ≤ 4 }
{
    match set {
        0b0000 => "0",
        0b0001 => "w",
        0b0010 => "r",
        0b0011 => "rw",
        0b0100 => "o",
        0b0101 => "ow",
        0b0110 => "or",
        0b0111 => "orw",
        0b1000 => "i",
        0b1001 => "iw",
        0b1010 => "ir",
        0b1011 => "irw",
        0b1100 => "io",
        0b1101 => "iow",
        0b1110 => "ior",
        0b1111 => "iorw",
        _ => unreachable!(),
    }
}
