//! The words of a line.
ghost use Rattle.std.specs.Prelude.{◌≡◌, ◌%◌, length, position, unwrap_or};
ghost use Rattle.trace_text.specs.Words.{is_mark, words, first, behind};
ghost use Rattle.trace_text.specs.Values.{value_of, number_of, hex_of, hart_of, cluster_of, line_of, address_of, content_of, slot_of};

use crate::values::{is_name, low_bits, value_of};
use dash_base::{ClusterId, HartId, LineId, Mask, WordAddr};
use std::marker::Model;

/// The words of a line that were not taken yet. Contracts see their list.
#[derive(Drop)]
pub struct Words<'a> {
    rest: &'a [u8],
}

impl<'a> Model for Words<'a> {
    ghost use Rattle.std.specs.Prelude.{ℕ, List};
    ghost use Rattle.trace_text.specs.Words.{words};

    ghost Value = { List (List ℕ) };

    ghost view = { λ w. words w.rest.now };
}

impl<'a> Words<'a> {
    /// The words of a text.
    pub fn of(text: &'a [u8]) -> Words<'a>
        ensures { result ≡ words text.now }
    {
        Words { rest: text }
    }

    /// Takes the next word, or an empty one where there is none.
    pub fn take(&mut self) -> &'a [u8]
        ensures word { result.now ≡ first self.old }
        ensures rest { self.new ≡ behind self.old }
    {
        let (word, rest) = cut(self.rest);
        self.rest = rest;
        word
    }

    /// Takes a decimal number of 64 bits.
    pub fn long(&mut self) -> u64
        ensures value { result ≡ value_of 10 (first self.old) }
        ensures rest { self.new ≡ behind self.old }
    {
        value_of(10, self.take())
    }

    /// Takes a decimal number of 32 bits.
    pub fn number(&mut self) -> u32
        ensures value { result ≡ number_of (first self.old) }
        ensures rest { self.new ≡ behind self.old }
    {
        low_bits(value_of(10, self.take()))
    }

    /// Takes a hexadecimal number of 32 bits.
    pub fn hex(&mut self) -> u32
        ensures value { result ≡ hex_of (first self.old) }
        ensures rest { self.new ≡ behind self.old }
    {
        low_bits(value_of(16, self.take()))
    }

    /// Takes a hart's number.
    pub fn hart(&mut self) -> HartId
        ensures value { result ≡ hart_of (first self.old) }
        ensures rest { self.new ≡ behind self.old }
    {
        HartId(self.number())
    }

    /// Takes a cluster's number.
    pub fn cluster(&mut self) -> ClusterId
        ensures value { result ≡ cluster_of (first self.old) }
        ensures rest { self.new ≡ behind self.old }
    {
        ClusterId(self.number())
    }

    /// Takes a line's number.
    pub fn line(&mut self) -> LineId
        ensures value { result ≡ line_of (first self.old) }
        ensures rest { self.new ≡ behind self.old }
    {
        LineId(self.number())
    }

    /// Takes the address of a word.
    pub fn address(&mut self) -> WordAddr
        ensures value { result ≡ address_of (first self.old) }
        ensures rest { self.new ≡ behind self.old }
    {
        WordAddr(self.hex())
    }

    /// Takes a mask.
    pub fn mask(&mut self) -> Mask
        ensures value { result ≡ hex_of (first self.old) % 16 }
        ensures rest { self.new ≡ behind self.old }
    {
        Mask::new(self.hex() % 16)
    }

    /// Takes a word's content, or `-` for none.
    #[tactic(auto, unfolding(crate::specs::Values::content_of))]
    pub fn content(&mut self) -> Option<u32>
        ensures value { result ≡ content_of (first self.old) }
        ensures rest { self.new ≡ behind self.old }
    {
        let word = self.take();
        if is_name(word, "-") {
            None
        } else {
            Some(low_bits(value_of(16, word)))
        }
    }

    /// Takes a slot's number, or `-` for none.
    #[tactic(auto, unfolding(crate::specs::Values::slot_of))]
    pub fn slot(&mut self) -> Option<u32>
        ensures value { result ≡ slot_of (first self.old) }
        ensures rest { self.new ≡ behind self.old }
    {
        let word = self.take();
        if is_name(word, "-") {
            None
        } else {
            Some(low_bits(value_of(10, word)))
        }
    }
}

/// The first word of a text, and what stands behind it and its mark.
fn cut(text: &[u8]) -> (&[u8], &[u8])
    ensures word { result.0.now ≡ first (words text.now) }
    ensures rest { words result.1.now ≡ behind (words text.now) }
{
    let (word, rest) = text.split_at(word_len(text));
    match rest {
        [] => (word, rest),
        [_, others @ ..] => (word, others),
    }
}

/// How many bytes stand before the first mark.
fn word_len(text: &[u8]) -> usize
    ensures { result ≡ unwrap_or (position is_mark text.now) (length text.now) }
{
    match first_mark(text) {
        Some(place) => place,
        None => text.len(),
    }
}

/// Where the first mark stands.
fn first_mark(text: &[u8]) -> Option<usize>
    ensures { result ≡ position is_mark text.now }
{
    text.iter().position(|byte| *byte <= b' ')
}
