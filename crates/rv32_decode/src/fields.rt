//! Fields of a word.
ghost use Rattle.std.specs.Prelude.{◌≡◌, ◌+◌, ◌^◌, ◌<◌, ◌≤◌};
ghost use Rattle.dash_base.specs.Ranges.{FitsBits};
ghost use Rattle.rv32_decode.specs.Layout.{bits_from, in_bits};

/// So many bits of a word, from a bit on.
pub fn bits(word: u32, low: u32, width: u32) -> u32
    requires within { low + width ≤ 32 }
    requires some { 0 < width }
    requires few { width < 32 }
    ensures { result ≡ bits_from low width word }
{
    (word >> low) & ((1 << width) - 1)
}

/// The signed number whose two's complement these bits are.
pub fn signed(bits: u32, width: u32) -> i32
    requires some { 0 < width }
    requires few { width < 32 }
    requires fit { bits < 2 ^ width }
    ensures value { in_bits width result ≡ bits }
    ensures fits { FitsBits width result }
{
    if bits < 1 << (width - 1) {
        bits as i32
    } else {
        -(((1 << width) - bits) as i32)
    }
}
