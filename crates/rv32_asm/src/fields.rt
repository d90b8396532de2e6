//! The fields of an instruction, each read from its operand. What has a fault is taken as 0.
ghost use Rattle.std.specs.Prelude.{◌≡◌, ◌<◌, ◌%◌, ℤ, pos, neg_ℤ, ◌≤ℤ◌, unsigned_abs};
ghost use Rattle.rv32_asm.specs.Fields.{worst, no_register, register_field, fits, number_field, place_field, bare_field};

use crate::refusal::AsmCause;
use crate::register::Register;
use asm_words::{is_plain, number, read_place, register};

/// A register, and the fault of its operand.
#[derive(Drop)]
pub struct RegisterField {
    pub register: Register,
    pub fault: Option<AsmCause>,
}

/// A number, and the fault of its operand.
#[derive(Drop)]
pub struct NumberField {
    pub value: i64,
    pub fault: Option<AsmCause>,
}

/// An offset and a register, and the fault of their operand.
#[derive(Drop)]
pub struct PlaceField {
    pub offset: i64,
    pub base: Register,
    pub fault: Option<AsmCause>,
}

/// Of two faults the one that is told: `Shape` before `Name` before `Immediate`.
pub fn worst(a: Option<AsmCause>, b: Option<AsmCause>) -> Option<AsmCause>
    ensures { result ≡ worst a b }
{
    match (a, b) {
        (None, other) => other,
        (other, None) => other,
        (Some(AsmCause::Shape), _) => Some(AsmCause::Shape),
        (_, Some(AsmCause::Shape)) => Some(AsmCause::Shape),
        (Some(AsmCause::Name), _) => Some(AsmCause::Name),
        (_, Some(AsmCause::Name)) => Some(AsmCause::Name),
        _ => Some(AsmCause::Immediate),
    }
}

/// The register in an operand.
#[tactic(auto, unfolding(crate::specs::Fields::register_field))]
pub fn register_field(word: &[u8]) -> RegisterField
    ensures { result ≡ register_field word.now }
{
    match register(word) {
        Some(number) => RegisterField {
            register: Register::new(number),
            fault: None,
        },
        None => faulty_register(no_register(word)),
    }
}

fn no_register(word: &[u8]) -> AsmCause
    ensures { result ≡ no_register word.now }
{
    if is_plain(word) {
        AsmCause::Name
    } else {
        AsmCause::Shape
    }
}

fn faulty_register(cause: AsmCause) -> RegisterField
    ensures { result ≡ record { register = 0; fault = Some cause } }
{
    RegisterField {
        register: Register::new(0),
        fault: Some(cause),
    }
}

/// The number in an operand, from `least` to `greatest` and a multiple of `step`.
#[tactic(auto, unfolding(crate::specs::Fields::number_field))]
pub fn number_field(least: i64, greatest: i64, step: u64, word: &[u8]) -> NumberField
    requires least { least ≤ℤ pos 0 }
    requires greatest { pos 0 ≤ℤ greatest }
    requires step { 0 < step }
    ensures value { result ≡ number_field least greatest step word.now }
    ensures low { least ≤ℤ result.value }
    ensures high { result.value ≤ℤ greatest }
    ensures multiple { unsigned_abs result.value % step ≡ 0 }
{
    match number(word) {
        Some(value) => {
            if fits(least, greatest, step, value) {
                NumberField { value, fault: None }
            } else {
                no_number(AsmCause::Immediate)
            }
        }
        None => no_number(AsmCause::Shape),
    }
}

fn fits(least: i64, greatest: i64, step: u64, value: i64) -> bool
    requires { 0 < step }
    ensures { result ≡ fits least greatest step value }
{
    least <= value && value <= greatest && value.unsigned_abs() % step == 0
}

fn no_number(cause: AsmCause) -> NumberField
    ensures { result ≡ record { value = pos 0; fault = Some cause } }
{
    NumberField {
        value: 0,
        fault: Some(cause),
    }
}

/// The offset and the register of `OFFSET(BASE)`, the offset from `least` to `greatest` and a multiple of
/// `step`.
#[tactic(auto, unfolding(crate::specs::Fields::place_field))]
pub fn place_field(least: i64, greatest: i64, step: u64, word: &[u8]) -> PlaceField
    requires least { least ≤ℤ pos 0 }
    requires greatest { pos 0 ≤ℤ greatest }
    requires step { 0 < step }
    ensures value { result ≡ place_field least greatest step word.now }
    ensures low { least ≤ℤ result.offset }
    ensures high { result.offset ≤ℤ greatest }
    ensures multiple { unsigned_abs result.offset % step ≡ 0 }
{
    match read_place(word) {
        Some(place) => {
            let number = number_field(least, greatest, step, place.offset.bytes());
            let register = register_field(place.base.bytes());
            PlaceField {
                offset: number.value,
                base: register.register,
                fault: worst(number.fault, register.fault),
            }
        }
        None => PlaceField {
            offset: 0,
            base: Register::new(0),
            fault: Some(AsmCause::Shape),
        },
    }
}

/// The register of `(BASE)`.
#[tactic(auto, unfolding(crate::specs::Fields::bare_field))]
pub fn bare_field(word: &[u8]) -> RegisterField
    ensures { result ≡ bare_field word.now }
{
    match read_place(word) {
        Some(place) => {
            if place.offset.bytes().is_empty() {
                register_field(place.base.bytes())
            } else {
                faulty_register(AsmCause::Shape)
            }
        }
        None => faulty_register(AsmCause::Shape),
    }
}
