//! How a line is cut into its first word and its operands.
ghost use Rattle.std.specs.Prelude.{◌≡◌, ◌-◌, length, take};
ghost use Rattle.asm_words.specs.Operands.{first, second, third, operands_of, statement_of, keyword_of, listed_in, closed, place_of};

use crate::cuts::{after_blank, before_blank, before_mark, behind_mark, trimmed};
use crate::word::Word;

/// The words between the commas of a line, without the spaces and tabs round them.
#[derive(Drop)]
pub enum Operands<'a> {
    Nothing,
    One(Word<'a>),
    Two(Word<'a>, Word<'a>),
    Three(Word<'a>, Word<'a>, Word<'a>),
    /// More than three, which no line has.
    Many,
}

/// The two words of `OFFSET(BASE)`.
#[derive(Drop)]
pub struct Place<'a> {
    pub offset: Word<'a>,
    pub base: Word<'a>,
}

/// What a line says: without its comment, which begins at `#`, and without the spaces and tabs at its ends.
#[tactic(auto, unfolding(crate::specs::Operands::statement_of))]
pub fn statement(line: &[u8]) -> &[u8]
    ensures { result.now ≡ statement_of line.now }
{
    trimmed(before_mark(line, b'#'))
}

/// The first word of what a line says.
#[tactic(auto, unfolding(crate::specs::Operands::keyword_of))]
pub fn keyword(statement: &[u8]) -> &[u8]
    ensures { result.now ≡ keyword_of statement.now }
{
    before_blank(statement)
}

/// The words behind the first.
#[tactic(auto, unfolding(crate::specs::Operands::listed_in))]
pub fn listed(statement: &[u8]) -> Operands<'_>
    ensures { result ≡ listed_in statement.now }
{
    read_operands(trimmed(after_blank(statement)))
}

/// The operands of a text.
#[tactic(auto, unfolding(crate::specs::Operands::operands_of))]
fn read_operands(text: &[u8]) -> Operands<'_>
    ensures { result ≡ operands_of text.now }
{
    if text.is_empty() {
        return Operands::Nothing;
    }
    let a = before_mark(text, b',');
    match behind_mark(text, b',') {
        None => Operands::One(Word::new(trimmed(a))),
        Some(rest) => with_second(a, rest.bytes()),
    }
}

/// The operands of a text whose first is known.
fn with_second<'a>(a: &'a [u8], rest: &'a [u8]) -> Operands<'a>
    ensures { result ≡ first a.now (Some rest.now) }
{
    let b = before_mark(rest, b',');
    match behind_mark(rest, b',') {
        None => Operands::Two(Word::new(trimmed(a)), Word::new(trimmed(b))),
        Some(rest) => with_third(a, b, rest.bytes()),
    }
}

/// The operands of a text whose first two are known.
fn with_third<'a>(a: &'a [u8], b: &'a [u8], rest: &'a [u8]) -> Operands<'a>
    ensures { result ≡ second a.now b.now (Some rest.now) }
{
    let c = before_mark(rest, b',');
    match behind_mark(rest, b',') {
        None => Operands::Three(
            Word::new(trimmed(a)),
            Word::new(trimmed(b)),
            Word::new(trimmed(c)),
        ),
        Some(_) => Operands::Many,
    }
}

/// The words of `OFFSET(BASE)`. `None` where the operand has no such form.
#[tactic(auto, unfolding(crate::specs::Operands::place_of))]
pub fn read_place(word: &[u8]) -> Option<Place<'_>>
    ensures { result ≡ place_of word.now }
{
    let rest = behind_mark(word, b'(')?;
    close(before_mark(word, b'('), rest.bytes())
}

/// The place whose base stands before the parenthesis that closes.
fn close<'a>(offset: &'a [u8], rest: &'a [u8]) -> Option<Place<'a>>
    ensures { result ≡ closed offset.now (Some rest.now) }
{
    if 0 < rest.len() && rest[rest.len() - 1] == b')' {
        Some(Place {
            offset: Word::new(offset),
            base: Word::new(&rest[..rest.len() - 1]),
        })
    } else {
        None
    }
}
