//! Quotients and remainders of two words. None traps: a zero divisor and an overflow have values.
ghost use Rattle.std.specs.Prelude.{◌≡◌, ◌-◌, ◌/◌, ◌%◌, ◌^◌, ◌==◌, if◌then◌else◌};
ghost use Rattle.rv32_alu.specs.Arithmetic.{overflows, quotient, remainder};

/// The quotient of two signed words, rounded towards zero.
pub fn div(a: u32, b: u32) -> u32
    ensures { result ≡ quotient a b }
{
    if b == 0 {
        u32::MAX
    } else if is_overflow(a, b) {
        a
    } else {
        (a.cast_signed() / b.cast_signed()).cast_unsigned()
    }
}

/// The quotient of two unsigned words.
pub fn divu(a: u32, b: u32) -> u32
    ensures { result ≡ if b == 0 then 2 ^ 32 - 1 else a / b }
{
    if b == 0 { u32::MAX } else { a / b }
}

/// The remainder of two signed words, with the sign of the dividend.
pub fn rem(a: u32, b: u32) -> u32
    ensures { result ≡ remainder a b }
{
    if b == 0 {
        a
    } else if is_overflow(a, b) {
        0
    } else {
        (a.cast_signed() % b.cast_signed()).cast_unsigned()
    }
}

/// The remainder of two unsigned words.
pub fn remu(a: u32, b: u32) -> u32
    ensures { result ≡ if b == 0 then a else a % b }
{
    if b == 0 { a } else { a % b }
}

/// Whether the quotient of two signed words is no signed word.
fn is_overflow(a: u32, b: u32) -> bool
    ensures { result ≡ overflows a b }
{
    a == 0x8000_0000 && b == 0xFFFF_FFFF
}
