//! The spelling of an instruction, as an assembler reads it.
#![tactic(auto)]

ghost use Rattle.std.specs.Prelude.{◌≡◌, ◌++◌, ◌+◌, ◌<◌, ◌≤◌, length};
ghost use Rattle.std.specs.Fmt.{signed_decimal};
ghost use Rattle.arrayvec.specs.ArrayString.{array_string_len};
ghost use Rattle.rv32_text.specs.Names.{register};
ghost use Rattle.rv32_text.specs.Text.{place, upper_text, jal_text, place_text, number_text, registers_text, amo_text, source_text, fence_text, hint_text, instr_text, text_of};

use arrayvec::ArrayString;
use dash_base::{Amo, AmoOp, Instr};
use itoa::Buffer;
use rv32_decode::{Hint, hint};

pub mod laws;
pub mod names;

/// The spelling of an instruction, such as `lw t0,-4(sp)`.
pub fn text(i: &Instr) -> ArrayString<48>
    ensures { result.bytes ≡ text_of i.now }
{
    match hint(i) {
        Some(hint) => hint_text(&hint),
        None => instr_text(i),
    }
}

/// The spelling of an instruction by its fields.
fn instr_text(i: &Instr) -> ArrayString<48>
    ensures { result.bytes ≡ instr_text i.now }
{
    match i {
        Instr::Lui(i) => upper_text("lui", i.rd, i.imm),
        Instr::Auipc(i) => upper_text("auipc", i.rd, i.imm),
        Instr::Jal(i) => jal_text(i.rd, i.offset),
        Instr::Jalr(i) => place_text("jalr", i.rd, i.offset, i.rs1),
        Instr::Branch(i) => number_text(names::branch_name(i.op), i.rs1, i.rs2, i.offset),
        Instr::Load(i) => place_text(names::load_name(i.op), i.rd, i.offset, i.rs1),
        Instr::Store(i) => place_text(names::store_name(i.op), i.rs2, i.offset, i.rs1),
        Instr::OpImm(i) => number_text(names::immediate_name(i.op), i.rd, i.rs1, i.imm),
        Instr::Op(i) => registers_text(names::alu_name(i.op), i.rd, i.rs1, i.rs2),
        Instr::Amo(i) => amo_text(i),
        Instr::Fence(i) => fence_text(i.pred, i.succ),
        Instr::Ecall => copied("ecall"),
        Instr::Ebreak => copied("ebreak"),
    }
}

/// A short text.
fn copied(text: &str) -> ArrayString<48>
    requires { length text.now ≤ 10 }
    ensures bytes { result.bytes ≡ text.now }
    ensures short { array_string_len result ≤ 10 }
{
    let mut copy = ArrayString::new();
    copy.push_str(text);
    copy
}

/// `NAME RD,IMM`, the immediate without its low 12 bits.
#[tactic(auto, unfolding(crate::specs::Text::upper_text))]
fn upper_text(name: &str, rd: u32, imm: u32) -> ArrayString<48>
    requires short { length name.now ≤ 10 }
    requires rd_in_range { rd < 32 }
    ensures { result.bytes ≡ upper_text name.now rd imm }
{
    let mut text = copied(name);
    text.push_str(" ");
    push_register(&mut text, rd);
    text.push_str(",");
    text.push_str(Buffer::new().format(imm / 4096));
    text
}

/// `jal RD,OFFSET`.
#[tactic(auto, unfolding(crate::specs::Text::jal_text))]
fn jal_text(rd: u32, offset: i32) -> ArrayString<48>
    requires { rd < 32 }
    ensures { result.bytes ≡ jal_text rd offset }
{
    let mut text = copied("jal ");
    push_register(&mut text, rd);
    text.push_str(",");
    push_number(&mut text, offset);
    text
}

/// `NAME A,OFFSET(BASE)`.
#[tactic(auto, unfolding(crate::specs::Text::place_text))]
fn place_text(name: &str, a: u32, offset: i32, base: u32) -> ArrayString<48>
    requires short { length name.now ≤ 10 }
    requires a_in_range { a < 32 }
    requires base_in_range { base < 32 }
    ensures { result.bytes ≡ place_text name.now a offset base }
{
    let mut text = copied(name);
    text.push_str(" ");
    push_register(&mut text, a);
    text.push_str(",");
    push_place(&mut text, offset, base);
    text
}

/// `NAME A,B,NUMBER`.
#[tactic(auto, unfolding(crate::specs::Text::number_text))]
fn number_text(name: &str, a: u32, b: u32, number: i32) -> ArrayString<48>
    requires short { length name.now ≤ 10 }
    requires a_in_range { a < 32 }
    requires b_in_range { b < 32 }
    ensures { result.bytes ≡ number_text name.now a b number }
{
    let mut text = copied(name);
    text.push_str(" ");
    push_register(&mut text, a);
    text.push_str(",");
    push_register(&mut text, b);
    text.push_str(",");
    push_number(&mut text, number);
    text
}

/// `NAME A,B,C`.
#[tactic(auto, unfolding(crate::specs::Text::registers_text))]
fn registers_text(name: &str, a: u32, b: u32, c: u32) -> ArrayString<48>
    requires short { length name.now ≤ 10 }
    requires a_in_range { a < 32 }
    requires b_in_range { b < 32 }
    requires c_in_range { c < 32 }
    ensures { result.bytes ≡ registers_text name.now a b c }
{
    let mut text = copied(name);
    text.push_str(" ");
    push_register(&mut text, a);
    text.push_str(",");
    push_register(&mut text, b);
    text.push_str(",");
    push_register(&mut text, c);
    text
}

/// `NAMELABELS RD,RS2,(RS1)`.
#[tactic(auto, unfolding(crate::specs::Text::amo_text))]
fn amo_text(i: &Amo) -> ArrayString<48>
    ensures { result.bytes ≡ amo_text i.now }
{
    let mut text = copied(names::amo_name(i.op));
    text.push_str(names::label_suffix(i.labels));
    text.push_str(" ");
    push_register(&mut text, i.rd);
    text.push_str(",");
    push_source(&mut text, i.op, i.rs2);
    text.push_str("(");
    push_register(&mut text, i.rs1);
    text.push_str(")");
    text
}

/// `fence PRED,SUCC`.
#[tactic(auto, unfolding(crate::specs::Text::fence_text))]
fn fence_text(pred: u32, succ: u32) -> ArrayString<48>
    requires pred_in_range { pred < 16 }
    requires succ_in_range { succ < 16 }
    ensures { result.bytes ≡ fence_text pred succ }
{
    let mut text = copied("fence ");
    text.push_str(names::fence_set(pred));
    text.push_str(",");
    text.push_str(names::fence_set(succ));
    text
}

/// `NAME OFFSET(BASE)`.
#[tactic(auto, unfolding(crate::specs::Text::hint_text))]
fn hint_text(hint: &Hint) -> ArrayString<48>
    requires { hint.now.rs1 < 32 }
    ensures { result.bytes ≡ hint_text hint.now }
{
    let mut text = copied(names::prefetch_name(hint.kind));
    text.push_str(" ");
    push_place(&mut text, hint.offset, hint.rs1);
    text
}

/// `OFFSET(BASE)`.
#[tactic(auto, unfolding(crate::specs::Text::place))]
fn push_place(text: &mut ArrayString<48>, offset: i32, base: u32)
    requires base_in_range { base < 32 }
    requires room { array_string_len text.old + 17 ≤ 48 }
    ensures { text.new.bytes ≡ text.old.bytes ++ place offset base }
{
    push_number(text, offset);
    text.push_str("(");
    push_register(text, base);
    text.push_str(")");
}

/// The register that an atomic operation other than LR takes, and a comma.
fn push_source(text: &mut ArrayString<48>, op: AmoOp, rs2: u32)
    requires rs2_in_range { rs2 < 32 }
    requires room { array_string_len text.old + 5 ≤ 48 }
    ensures bytes { text.new.bytes ≡ text.old.bytes ++ source_text op rs2 }
    ensures short { array_string_len text.new ≤ array_string_len text.old + 5 }
{
    if !matches!(op, AmoOp::Lr) {
        push_register(text, rs2);
        text.push_str(",");
    }
}

fn push_register(text: &mut ArrayString<48>, number: u32)
    requires in_range { number < 32 }
    requires room { array_string_len text.old + 4 ≤ 48 }
    ensures bytes { text.new.bytes ≡ text.old.bytes ++ register number }
    ensures short { array_string_len text.new ≤ array_string_len text.old + 4 }
{
    text.push_str(names::register(number));
}

fn push_number(text: &mut ArrayString<48>, number: i32)
    requires room { array_string_len text.old + 11 ≤ 48 }
    ensures bytes { text.new.bytes ≡ text.old.bytes ++ signed_decimal number }
    ensures short { array_string_len text.new ≤ array_string_len text.old + 11 }
{
    text.push_str(Buffer::new().format(number));
}
