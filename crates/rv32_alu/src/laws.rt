//! Laws of quotients and remainders of signed words, where the divisor is not 0 and the quotient does not
//! overflow. The functions do nothing: their contracts are the laws.
ghost use Rattle.std.specs.Prelude.{◌≡◌, ◌+ℤ◌, ◌*ℤ◌, ◌<◌, ◌≤ℤ◌, ◌^◌, ℕ, pos, unsigned_abs, false};
ghost use Rattle.rv32_alu.specs.Arithmetic.{overflows, quotient, remainder, signed};

/// The quotient times the divisor, plus the remainder, is the dividend.
pub fn quotient_and_remainder()
    ensures { (a : ℕ) → (b : ℕ) → a < 2 ^ 32 → b < 2 ^ 32 → 0 < b → overflows a b ≡ false
        → signed (quotient a b) *ℤ signed b +ℤ signed (remainder a b) ≡ signed a }
{}

/// The remainder is smaller than the divisor, without their signs.
pub fn remainder_is_below()
    ensures { (a : ℕ) → (b : ℕ) → a < 2 ^ 32 → b < 2 ^ 32 → 0 < b → overflows a b ≡ false
        → unsigned_abs (signed (remainder a b)) < unsigned_abs (signed b) }
{}

/// The remainder is not negative where the dividend is not.
pub fn remainder_of_positive()
    ensures { (a : ℕ) → (b : ℕ) → a < 2 ^ 32 → b < 2 ^ 32 → 0 < b → overflows a b ≡ false
        → pos 0 ≤ℤ signed a → pos 0 ≤ℤ signed (remainder a b) }
{}

/// The remainder is not positive where the dividend is not.
pub fn remainder_of_negative()
    ensures { (a : ℕ) → (b : ℕ) → a < 2 ^ 32 → b < 2 ^ 32 → 0 < b → overflows a b ≡ false
        → signed a ≤ℤ pos 0 → signed (remainder a b) ≤ℤ pos 0 }
{}
