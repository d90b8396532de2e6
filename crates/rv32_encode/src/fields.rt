//! Fields of a word.
ghost use Rattle.std.specs.Prelude.{◌≡◌, ◌+◌, ◌^◌, ◌<◌, ◌≤◌};
ghost use Rattle.dash_base.specs.Ranges.{FitsBits};
ghost use Rattle.rv32_decode.specs.Layout.{bits_from, in_bits};

/// So many bits of a number, from a bit on.
pub fn bits(number: u32, low: u32, width: u32) -> u32
    requires within { low + width ≤ 32 }
    requires some { 0 < width }
    requires few { width < 32 }
    ensures { result ≡ bits_from low width number }
{
    (number >> low) & ((1 << width) - 1)
}

/// A signed number in so many bits, by its two's complement.
pub fn in_bits(number: i32, width: u32) -> u32
    requires some { 0 < width }
    requires few { width < 32 }
    requires fits { FitsBits width number }
    ensures value { result ≡ in_bits width number }
    ensures small { result < 2 ^ width }
{
    if number < 0 {
        (1 << width) - number.unsigned_abs()
    } else {
        number as u32
    }
}
