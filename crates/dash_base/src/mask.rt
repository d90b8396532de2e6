//! Masks of the bytes of a word, and words merged under one.
ghost use Rattle.std.specs.Prelude.{◌≡◌, ◌<◌};
ghost use Rattle.dash_base.specs.Words.{merged, merged_byte};

use std::marker::Model;

/// Which bytes of a word: bit `i` for byte `i`, the lowest being byte 0. Contracts see the number.
#[derive(Clone, Copy, Debug, PartialEq, Eq)]
pub struct Mask {
    bits: u32,
}

impl Model for Mask {
    ghost use Rattle.std.specs.Prelude.{ℕ, ◌<◌};

    ghost Value = { ℕ };

    ghost view = { λ m. m.bits };

    ghost invariant = { λ m. m.bits < 16 };

    ghost inverse = { λ n. record { bits = n } };
}

impl Mask {
    /// The mask with these bits.
    pub const fn new(bits: u32) -> Mask
        requires { bits < 16 }
        ensures { result ≡ bits }
    {
        Mask { bits }
    }

    pub const fn bits(self) -> u32
        ensures value { result ≡ self }
        ensures small { self < 16 }
    {
        self.bits
    }
}

/// The bytes of `value` where the mask has its bit, and else those of `word`.
#[tactic(auto, unfolding(crate::specs::Words::merged))]
pub fn merge(word: u32, mask: Mask, value: u32) -> u32
    ensures { result ≡ merged word mask value }
{
    merged_byte(word, mask, value, 0)
        + (merged_byte(word, mask, value, 1) << 8)
        + (merged_byte(word, mask, value, 2) << 16)
        + (merged_byte(word, mask, value, 3) << 24)
}

/// Byte `k` of the merged word.
fn merged_byte(word: u32, mask: Mask, value: u32, k: u32) -> u32
    requires { k < 4 }
    ensures { result ≡ merged_byte k word mask value }
{
    let chosen = if (mask.bits >> k) & 1 == 1 {
        value
    } else {
        word
    };
    (chosen >> (8 * k)) & 0xff
}
