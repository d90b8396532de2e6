//! The number that a word spells.
ghost use Rattle.std.specs.Prelude.{◌≡◌, ◌≤◌, ◌^◌};
ghost use Rattle.std.specs.List.{list_all};
ghost use Rattle.std.specs.Char.{digit_value};
ghost use Rattle.asm_words.specs.Numbers.{is_digit, is_numeral, decimal_value, hex_value, has_minus, has_prefix, positive, negative, hexadecimal, number_of};

use crate::names::first_byte;

/// What every number from 2^33 on is taken as: it is beyond each field and each address.
const CAP: u64 = 1 << 33;

/// The number of a word of decimal digits, with or without `-` in front, or of `0x` and one to eight
/// hexadecimal digits. It is at most 2^33: what is beyond is taken as 2^33. `None` where it is no such word.
#[tactic(auto, unfolding(crate::specs::Numbers::number_of))]
pub fn number(word: &[u8]) -> Option<i64>
    ensures { result ≡ number_of word.now }
{
    if has_minus(word) {
        negative(&word[1..])
    } else if has_prefix(word) {
        hexadecimal(&word[2..])
    } else {
        positive(word)
    }
}

fn has_minus(word: &[u8]) -> bool
    ensures { result ≡ has_minus word.now }
{
    first_byte(word) == b'-'
}

fn has_prefix(word: &[u8]) -> bool
    ensures { result ≡ has_prefix word.now }
{
    1 < word.len() && word[0] == b'0' && word[1] == b'x'
}

fn positive(digits: &[u8]) -> Option<i64>
    ensures { result ≡ positive digits.now }
{
    if is_numeral(10, digits) {
        Some(decimal_value(digits) as i64)
    } else {
        None
    }
}

fn negative(digits: &[u8]) -> Option<i64>
    ensures { result ≡ negative digits.now }
{
    if is_numeral(10, digits) {
        Some(-(decimal_value(digits) as i64))
    } else {
        None
    }
}

fn hexadecimal(digits: &[u8]) -> Option<i64>
    ensures { result ≡ hexadecimal digits.now }
{
    if is_numeral(16, digits) && digits.len() <= 8 {
        Some(hex_value(digits) as i64)
    } else {
        None
    }
}

#[tactic(auto, using(std::proofs::lemmas::Bool::Decides::nat_tests), unfolding(crate::specs::Numbers::is_numeral))]
fn is_numeral(radix: u32, digits: &[u8]) -> bool
    ensures { result ≡ is_numeral radix digits.now }
{
    0 < digits.len() && all_digits(radix, digits)
}

fn all_digits(radix: u32, digits: &[u8]) -> bool
    ensures { result ≡ list_all (is_digit radix) digits.now }
{
    digits.iter().all(|c| is_digit(radix, *c))
}

fn is_digit(radix: u32, c: u8) -> bool
    ensures { result ≡ is_digit radix c }
{
    digit_value(c) < radix
}

/// The value of a digit or a letter; what is neither counts as 36.
fn digit_value(c: u8) -> u32
    ensures value { result ≡ digit_value c }
    ensures small { result ≤ 36 }
{
    char::from(c).to_digit(36).unwrap_or(36)
}

#[tactic(auto, using(crate::proofs::Values::decimal_small))]
fn decimal_value(digits: &[u8]) -> u64
    ensures value { result ≡ decimal_value digits.now }
    ensures capped { result ≤ 2 ^ 33 }
{
    let mut value = 0_u64;
    for c in digits {
        value = (value * 10 + u64::from(digit_value(*c))).min(CAP);
    }
    value
}

#[tactic(auto, using(crate::proofs::Values::hex_small))]
fn hex_value(digits: &[u8]) -> u64
    ensures value { result ≡ hex_value digits.now }
    ensures capped { result ≤ 2 ^ 33 }
{
    let mut value = 0_u64;
    for c in digits {
        value = (value * 16 + u64::from(digit_value(*c))).min(CAP);
    }
    value
}
