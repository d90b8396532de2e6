//! Why a line is refused.
ghost use Rattle.std.specs.Prelude.{◌≡◌, ◌+◌, ◌<◌, ◌^◌, nat_lt, pos, ◌-ℤ◌, if◌then◌else◌};
ghost use Rattle.asm_words.specs.Mnemonics.{either};
ghost use Rattle.rv32_asm.specs.Fields.{fits};
ghost use Rattle.rv32_asm.specs.Tree.{in_tree};
ghost use Rattle.rv32_asm.specs.Causes.{offset_cause, immediate_cause, other_line, twice_cause, undefined, missing_cause, homeless, segment_cause, past, past_from, long_cause, cause_of};

use crate::here::{Here, size};
use crate::labels::{Definition, Labels};
use crate::refusal::AsmCause;
use crate::statement::Statement;

/// The least offset of a branch.
pub const LEAST_BRANCH: i64 = -4096;
/// The greatest offset of a branch.
pub const GREATEST_BRANCH: i64 = 4094;
/// The least offset of a jump.
pub const LEAST_JUMP: i64 = -1048576;
/// The greatest offset of a jump.
pub const GREATEST_JUMP: i64 = 1048574;

/// The first cause for which a line is refused, by what stands before it and the labels of the source.
pub fn cause(
    labels: &Labels<'_>,
    here: &Here,
    said: &Result<Statement<'_>, AsmCause>,
) -> Option<AsmCause>
    ensures { result ≡ cause_of (in_tree labels.now.map) here.now said.now }
{
    match said {
        Ok(statement) => either(
            immediate_cause(labels, here.place, statement),
            either(
                twice_cause(labels, here.line, statement),
                either(
                    missing_cause(labels, statement),
                    either(
                        segment_cause(here.place, statement),
                        long_cause(here, statement),
                    ),
                ),
            ),
        ),
        Err(cause) => Some(*cause),
    }
}

fn either(a: Option<AsmCause>, b: Option<AsmCause>) -> Option<AsmCause>
    ensures { result ≡ either a b }
{
    match a {
        Some(cause) => Some(cause),
        None => b,
    }
}

fn immediate_cause(
    labels: &Labels<'_>,
    place: Option<u64>,
    statement: &Statement<'_>,
) -> Option<AsmCause>
    ensures { result ≡ immediate_cause (in_tree labels.now.map) place statement.now }
{
    match statement {
        Statement::Branch(_, _, _, label) => offset_cause(
            LEAST_BRANCH,
            GREATEST_BRANCH,
            place,
            labels.of(label.bytes()),
        ),
        Statement::Jump(_, label) => {
            offset_cause(LEAST_JUMP, GREATEST_JUMP, place, labels.of(label.bytes()))
        }
        _ => None,
    }
}

fn offset_cause(
    least: i64,
    greatest: i64,
    place: Option<u64>,
    label: Option<Definition>,
) -> Option<AsmCause>
    ensures { result ≡ offset_cause least greatest place label }
{
    match (place, label) {
        (Some(place), Some(definition)) => {
            if reaches(least, greatest, place, definition.address) {
                None
            } else {
                Some(AsmCause::Immediate)
            }
        }
        _ => None,
    }
}

/// Whether the offset from one address to another is even and within these limits.
pub fn reaches(least: i64, greatest: i64, place: u64, address: u64) -> bool
    ensures { result ≡ fits least greatest 2 (pos address -ℤ pos place) }
{
    fits(
        i128::from(least),
        i128::from(greatest),
        offset(place, address),
    )
}

pub fn offset(place: u64, address: u64) -> i128
    ensures { result ≡ pos address -ℤ pos place }
{
    i128::from(address) - i128::from(place)
}

fn fits(least: i128, greatest: i128, offset: i128) -> bool
    ensures { result ≡ fits least greatest 2 offset }
{
    least <= offset && offset <= greatest && offset.unsigned_abs() % 2 == 0
}

fn twice_cause(labels: &Labels<'_>, line: u32, statement: &Statement<'_>) -> Option<AsmCause>
    ensures { result ≡ twice_cause (in_tree labels.now.map) line statement.now }
{
    match statement {
        Statement::Label(label) => other_line(line, labels.of(label.bytes())),
        _ => None,
    }
}

fn other_line(line: u32, label: Option<Definition>) -> Option<AsmCause>
    ensures { result ≡ other_line line label }
{
    match label {
        Some(definition) => {
            if definition.line == line {
                None
            } else {
                Some(AsmCause::Twice)
            }
        }
        None => None,
    }
}

fn missing_cause(labels: &Labels<'_>, statement: &Statement<'_>) -> Option<AsmCause>
    ensures { result ≡ missing_cause (in_tree labels.now.map) statement.now }
{
    match statement {
        Statement::Branch(_, _, _, label) => undefined(labels.of(label.bytes())),
        Statement::Jump(_, label) => undefined(labels.of(label.bytes())),
        Statement::PutAddress(label) => undefined(labels.of(label.bytes())),
        Statement::PairAddress(_, label) => undefined(labels.of(label.bytes())),
        Statement::Entry(label) => undefined(labels.of(label.bytes())),
        _ => None,
    }
}

fn undefined(label: Option<Definition>) -> Option<AsmCause>
    ensures { result ≡ undefined label }
{
    match label {
        Some(_) => None,
        None => Some(AsmCause::Missing),
    }
}

fn segment_cause(place: Option<u64>, statement: &Statement<'_>) -> Option<AsmCause>
    ensures { result ≡ segment_cause place statement.now }
{
    match place {
        Some(_) => None,
        None => homeless(statement),
    }
}

fn homeless(statement: &Statement<'_>) -> Option<AsmCause>
    ensures { result ≡ homeless statement.now }
{
    match statement {
        Statement::Label(_) => Some(AsmCause::NoSegment),
        _ => {
            if 0 < size(statement) {
                Some(AsmCause::NoSegment)
            } else {
                None
            }
        }
    }
}

fn long_cause(here: &Here, statement: &Statement<'_>) -> Option<AsmCause>
    ensures { result ≡ long_cause here.now statement.now }
{
    match statement {
        Statement::Segment(_, _) => too_long(64 <= here.segments),
        _ => too_long(has_too_many(here.total, size(statement)) || past(here.place, statement)),
    }
}

fn has_too_many(total: u64, size: u64) -> bool
    requires { size < 2 ^ 32 }
    ensures { result ≡ nat_lt 16777216 (total + size) }
{
    16_777_216 < total || 16_777_216 - total < size
}

fn too_long(is: bool) -> Option<AsmCause>
    ensures { result ≡ (if is then Some AsmCause.TooLong else None) }
{
    if is { Some(AsmCause::TooLong) } else { None }
}

/// Whether an address of the line, of a byte or of a label, is past 2^32 - 1.
fn past(place: Option<u64>, statement: &Statement<'_>) -> bool
    ensures { result ≡ past place statement.now }
{
    match place {
        Some(place) => past_from(place, statement),
        None => false,
    }
}

fn past_from(place: u64, statement: &Statement<'_>) -> bool
    ensures { result ≡ past_from place statement.now }
{
    match statement {
        Statement::Label(_) => 4_294_967_296 <= place,
        _ => 4_294_967_296 < place || 4_294_967_296 - place < size(statement),
    }
}
