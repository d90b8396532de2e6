//! The bytes that a line puts.
ghost use Rattle.std.specs.Prelude.{◌≡◌, ◌+◌, ◌*◌, ◌%◌, ◌++◌, ◌≤◌, ◌<◌, ◌^◌, [], ◌∷◌, IfOk, ℤ, pos, neg_ℤ, ◌≤ℤ◌, unsigned_abs};
ghost use Rattle.rv32_decode.specs.Layout.{in_bits, u_type, i_type, j_type, b_type, branch_funct3};
ghost use Rattle.rv32_encode.specs.Elf.{words};
ghost use Rattle.rv32_asm.specs.Assembling.{open_len, Adds, Puts};
ghost use Rattle.rv32_asm.specs.Causes.{least_branch, greatest_branch, least_jump, greatest_jump};
ghost use Rattle.rv32_asm.specs.Labels.{size_of};
ghost use Rattle.rv32_asm.specs.Programs.{address_at, entry_or, pair_words, reach, upper_part};
ghost use Rattle.rv32_asm.specs.Tree.{in_tree};

use crate::assembly::Assembly;
use crate::causes::{GREATEST_BRANCH, GREATEST_JUMP, LEAST_BRANCH, LEAST_JUMP, offset, reaches};
use crate::labels::{Definition, Labels};
use crate::refusal::AsmCause;
use crate::register::Register;
use crate::statement::Statement;
use dash_base::{AluOp, Branch, BranchOp, Instr, Jal, OpImm, OutOfMemory, Upper};
use rv32_encode::encode;
use std::alloc::Global;

/// Puts what a line says behind what is there.
#[tactic(auto, unfolding(rv32_encode::specs::Elf::words))]
pub fn put(
    assembly: &mut Assembly,
    alloc: Global,
    labels: &Labels<'_>,
    place: Option<u64>,
    said: &Result<Statement<'_>, AsmCause>,
) -> Result<(), OutOfMemory>
    requires { open_len assembly.old.open < 2 ^ 32 }
    ensures put { IfOk result (λ _. Puts (in_tree labels.now.map) place said.now assembly.old assembly.new) }
    ensures len { IfOk result (λ _. open_len assembly.new.open ≤ open_len assembly.old.open + size_of said.now) }
    ensures entry { IfOk result (λ _. assembly.new.entry ≡ entry_or (in_tree labels.now.map) assembly.old.entry said.now) }
{
    match said {
        Ok(Statement::Segment(address, flags)) => assembly.begin(alloc, *address, *flags),
        Ok(Statement::Entry(label)) => {
            assembly.entry = Some(address_at(labels.of(label.bytes())));
            Ok(())
        }
        Ok(Statement::Space(count)) => assembly.put_zeros(*count),
        Ok(Statement::Put(word)) => assembly.put_word(*word),
        Ok(Statement::PutAddress(label)) => {
            assembly.put_word(address_at(labels.of(label.bytes())))
        }
        Ok(Statement::Branch(op, rs1, rs2, label)) => {
            assembly.put_word(branch_word(*op, rs1, rs2, place, labels.of(label.bytes())))
        }
        Ok(Statement::Jump(rd, label)) => {
            assembly.put_word(jump_word(rd, place, labels.of(label.bytes())))
        }
        Ok(Statement::Pair(rd, value)) => put_pair(assembly, rd, *value),
        Ok(Statement::PairAddress(rd, label)) => {
            put_pair(assembly, rd, address_at(labels.of(label.bytes())))
        }
        Ok(Statement::Blank) => Ok(()),
        Ok(Statement::Label(_)) => Ok(()),
        Err(_) => Ok(()),
    }
}

/// Puts the pair of instructions that gives a register a value.
fn put_pair(assembly: &mut Assembly, rd: &Register, value: u32) -> Result<(), OutOfMemory>
    ensures added { IfOk result (λ _. Adds (words (pair_words rd.now value)) assembly.old assembly.new) }
    ensures len { IfOk result (λ _. open_len assembly.new.open ≤ open_len assembly.old.open + 8) }
    ensures entry { IfOk result (λ _. assembly.new.entry ≡ assembly.old.entry) }
{
    assembly.put_word(upper_word(rd, value))?;
    assembly.put_word(lower_word(rd, value))?;
    Ok(())
}

fn upper_word(rd: &Register, value: u32) -> u32
    ensures { result ≡ u_type (4096 * upper_part value) rd.now 0b0110111 }
{
    encode(&Instr::Lui(Upper {
        rd: rd.number(),
        imm: 4096 * (value.wrapping_add(2048) / 4096),
    }))
}

fn lower_word(rd: &Register, value: u32) -> u32
    ensures { result ≡ i_type (value % 4096) rd.now 0b000 rd.now 0b0010011 }
{
    encode(&Instr::OpImm(OpImm {
        op: AluOp::Add,
        rd: rd.number(),
        rs1: rd.number(),
        imm: lower_part(value),
    }))
}

/// The signed number of twelve bits that the low twelve bits of a value are.
fn lower_part(value: u32) -> i32
    ensures bits { in_bits 12 result ≡ value % 4096 }
    ensures low { neg_ℤ (pos 2048) ≤ℤ result }
    ensures high { result ≤ℤ pos 2047 }
{
    let low = (value % 4096) as i32;
    if low < 2048 { low } else { low - 4096 }
}

fn branch_word(
    op: BranchOp,
    rs1: &Register,
    rs2: &Register,
    place: Option<u64>,
    label: Option<Definition>,
) -> u32
    ensures { result ≡ b_type (in_bits 13 (reach least_branch greatest_branch place label)) rs2.now rs1.now (branch_funct3 op) 0b1100011 }
{
    let offset = reach(LEAST_BRANCH, GREATEST_BRANCH, place, label);
    encode(&Instr::Branch(Branch {
        op,
        rs1: rs1.number(),
        rs2: rs2.number(),
        offset: offset as i32,
    }))
}

fn jump_word(rd: &Register, place: Option<u64>, label: Option<Definition>) -> u32
    ensures { result ≡ j_type (in_bits 21 (reach least_jump greatest_jump place label)) rd.now 0b1101111 }
{
    let offset = reach(LEAST_JUMP, GREATEST_JUMP, place, label);
    encode(&Instr::Jal(Jal {
        rd: rd.number(),
        offset: offset as i32,
    }))
}

/// The offset from an address to a label that it reaches, or 0.
fn reach(least: i64, greatest: i64, place: Option<u64>, label: Option<Definition>) -> i64
    requires least { least ≤ℤ pos 0 }
    requires greatest { pos 0 ≤ℤ greatest }
    ensures value { result ≡ reach least greatest place label }
    ensures low { least ≤ℤ result }
    ensures high { result ≤ℤ greatest }
    ensures even { unsigned_abs result % 2 ≡ 0 }
{
    match (place, label) {
        (Some(place), Some(definition)) => reach_from(least, greatest, place, definition.address),
        _ => 0,
    }
}

fn reach_from(least: i64, greatest: i64, place: u64, address: u64) -> i64
    requires least { least ≤ℤ pos 0 }
    requires greatest { pos 0 ≤ℤ greatest }
    ensures value { result ≡ reach least greatest (Some place) (Some (record { line = 0; address = address })) }
    ensures low { least ≤ℤ result }
    ensures high { result ≤ℤ greatest }
    ensures even { unsigned_abs result % 2 ≡ 0 }
{
    if reaches(least, greatest, place, address) {
        offset(place, address) as i64
    } else {
        0
    }
}

fn address_at(label: Option<Definition>) -> u32
    ensures { result ≡ address_at label }
{
    match label {
        Some(definition) => (definition.address % 4_294_967_296) as u32,
        None => 0,
    }
}
