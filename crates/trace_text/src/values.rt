//! What a word stands for.
ghost use Rattle.std.specs.Prelude.{◌≡◌, ◌%◌, ◌^◌, ◌≤◌};
ghost use Rattle.std.specs.Char.{digit_value};
ghost use Rattle.std.specs.Str.{bytes_eq};
ghost use Rattle.trace_text.specs.Values.{value_of, op_of, labels_of, cause_of};

use dash_base::{Labels, Trap};
use dash_event::Op;

/// Whether a word is this name.
pub fn is_name(word: &[u8], name: &str) -> bool
    ensures { result ≡ bytes_eq word.now name.now }
{
    word == name.as_bytes()
}

/// The low 32 bits.
pub fn low_bits(value: u64) -> u32
    ensures { result ≡ value % 2 ^ 32 }
{
    (value % (1 << 32)) as u32
}

/// The value of digits, of which the low 64 bits are kept. What is no digit counts as 36.
pub fn value_of(radix: u64, word: &[u8]) -> u64
    ensures { result ≡ value_of radix word.now }
{
    let mut value = 0_u64;
    for byte in word {
        value = value.wrapping_mul(radix).wrapping_add(digit_of(*byte));
    }
    value
}

fn digit_of(byte: u8) -> u64
    ensures { result ≡ digit_value byte }
{
    u64::from(char::from(byte).to_digit(36).unwrap_or(36))
}

/// The operation of this name.
#[tactic(auto, unfolding(crate::specs::Values::op_of))]
pub fn op_of(word: &[u8]) -> Op
    ensures { result ≡ op_of word.now }
{
    match word {
        b"load" => Op::Load,
        b"store" => Op::Store,
        b"lr" => Op::Reserve,
        b"sc" => Op::Cond,
        b"amo" => Op::Amo,
        b"ask" => Op::Ask,
        _ => Op::Unlock,
    }
}

/// The labels of this name.
#[tactic(auto, unfolding(crate::specs::Values::labels_of))]
pub fn labels_of(word: &[u8]) -> Labels
    ensures { result ≡ labels_of word.now }
{
    let both = is_name(word, "ar");
    Labels {
        aq: is_name(word, "a") || both,
        rl: is_name(word, "r") || both,
    }
}

/// The cause of this name.
#[tactic(auto, unfolding(crate::specs::Values::cause_of))]
pub fn cause_of(word: &[u8]) -> Trap
    ensures { result ≡ cause_of word.now }
{
    if is_name(word, "illegal") {
        Trap::Illegal
    } else if is_name(word, "misaligned") {
        Trap::Misaligned
    } else if is_name(word, "unmapped") {
        Trap::Unmapped
    } else if is_name(word, "readonly") {
        Trap::ReadOnly
    } else if is_name(word, "fetch") {
        Trap::Fetch
    } else if is_name(word, "lockuse") {
        Trap::LockUse
    } else if is_name(word, "badcall") {
        Trap::BadCall
    } else {
        Trap::Break
    }
}
