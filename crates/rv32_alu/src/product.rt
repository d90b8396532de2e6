//! The upper halves of the products of two words.
ghost use Rattle.std.specs.Prelude.{◌≡◌, ◌*◌, ◌/◌, ◌^◌, ◌*ℤ◌, pos};
ghost use Rattle.rv32_alu.specs.Arithmetic.{signed, upper_half};

/// The upper half of the product of two signed words.
pub fn mulh(a: u32, b: u32) -> u32
    ensures { result ≡ upper_half (signed a *ℤ signed b) }
{
    upper(i64::from(a.cast_signed()) * i64::from(b.cast_signed()))
}

/// The upper half of the product of a signed and an unsigned word.
pub fn mulhsu(a: u32, b: u32) -> u32
    ensures { result ≡ upper_half (signed a *ℤ pos b) }
{
    upper(i64::from(a.cast_signed()) * i64::from(b))
}

/// The upper half of the product of two unsigned words.
pub fn mulhu(a: u32, b: u32) -> u32
    ensures { result ≡ a * b / 2 ^ 32 }
{
    ((u64::from(a) * u64::from(b)) >> 32) as u32
}

/// The upper half of a signed product.
fn upper(product: i64) -> u32
    ensures { result ≡ upper_half product }
{
    ((product >> 32) as i32).cast_unsigned()
}
