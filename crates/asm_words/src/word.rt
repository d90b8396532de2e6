//! A word of a text.

ghost use Rattle.std.specs.Prelude.{◌≡◌};

use std::marker::Model;

/// Bytes of a text that stand together. Contracts see their list.
#[derive(Drop)]
pub struct Word<'a> {
    text: &'a [u8],
}

impl<'a> Model for Word<'a> {
    ghost use Rattle.std.specs.Prelude.{ℕ, List};

    ghost Value = { List ℕ };

    ghost view = { λ w. w.text.now };
}

impl<'a> Word<'a> {
    /// The word of these bytes.
    pub fn new(text: &'a [u8]) -> Word<'a>
        ensures { result ≡ text.now }
    {
        Word { text }
    }

    /// Its bytes.
    pub fn bytes(&self) -> &'a [u8]
        ensures { result.now ≡ self.now }
    {
        self.text
    }
}
