//! How a text is cut: at a mark, and at the blanks round it.
ghost use Rattle.std.specs.Prelude.{◌≡◌, ◌≤◌, length, reverse, position, unwrap_or};
ghost use Rattle.std.specs.List.{position_or_len};
ghost use Rattle.asm_words.specs.Cuts.{is_blank, is_solid, is_mark, before, behind, from_first, without_end, trimmed};

use crate::word::Word;

/// What stands before the first byte that is this mark, or all where there is none.
#[tactic(auto, unfolding(crate::specs::Cuts::before))]
pub fn before_mark(text: &[u8], mark: u8) -> &[u8]
    ensures { result.now ≡ before (is_mark mark) text.now }
{
    &text[..mark_place(text, mark)]
}

/// What stands behind the first byte that is this mark, where there is one.
#[tactic(auto, unfolding(crate::specs::Cuts::behind))]
pub fn behind_mark(text: &[u8], mark: u8) -> Option<Word<'_>>
    ensures { result ≡ behind (is_mark mark) text.now }
{
    let place = mark_place(text, mark);
    if place < text.len() {
        Some(Word::new(&text[place + 1..]))
    } else {
        None
    }
}

/// What stands before the first space or tab, or all where there is none.
#[tactic(auto, unfolding(crate::specs::Cuts::before))]
pub fn before_blank(text: &[u8]) -> &[u8]
    ensures { result.now ≡ before is_blank text.now }
{
    &text[..blank_place(text)]
}

/// What is left from the first space or tab on.
#[tactic(auto, unfolding(crate::specs::Cuts::from_first))]
pub fn after_blank(text: &[u8]) -> &[u8]
    ensures { result.now ≡ from_first is_blank text.now }
{
    &text[blank_place(text)..]
}

/// The text without the spaces and tabs at its ends.
#[tactic(auto, unfolding(crate::specs::Cuts::from_first))]
pub fn trimmed(text: &[u8]) -> &[u8]
    ensures { result.now ≡ trimmed text.now }
{
    without_end(&text[solid_place(text)..])
}

#[tactic(auto, unfolding(crate::specs::Cuts::without_end))]
fn without_end(text: &[u8]) -> &[u8]
    ensures { result.now ≡ without_end text.now }
{
    &text[..text.len() - blanks_at_end(text)]
}

/// Where the first byte that is this mark stands, or the length.
#[tactic(auto, using(crate::proofs::Places::place_is, crate::proofs::Places::at_most))]
fn mark_place(text: &[u8], mark: u8) -> usize
    ensures value { result ≡ position_or_len (is_mark mark) text.now }
    ensures within { result ≤ length text.now }
{
    or_len(first_mark(text, mark), text.len())
}

fn first_mark(text: &[u8], mark: u8) -> Option<usize>
    ensures { result ≡ position (is_mark mark) text.now }
{
    text.iter().position(|c| *c == mark)
}

/// Where the first space or tab stands, or the length.
#[tactic(auto, using(crate::proofs::Places::place_is, crate::proofs::Places::at_most))]
fn blank_place(text: &[u8]) -> usize
    ensures value { result ≡ position_or_len is_blank text.now }
    ensures within { result ≤ length text.now }
{
    or_len(first_blank(text), text.len())
}

fn first_blank(text: &[u8]) -> Option<usize>
    ensures { result ≡ position is_blank text.now }
{
    text.iter().position(|c| is_blank(*c))
}

/// Where the first byte stands that is neither, or the length.
#[tactic(auto, using(crate::proofs::Places::place_is, crate::proofs::Places::at_most))]
fn solid_place(text: &[u8]) -> usize
    ensures value { result ≡ position_or_len is_solid text.now }
    ensures within { result ≤ length text.now }
{
    or_len(first_solid(text), text.len())
}

fn first_solid(text: &[u8]) -> Option<usize>
    ensures { result ≡ position is_solid text.now }
{
    text.iter().position(|c| is_solid(*c))
}

/// How many spaces and tabs stand at the end.
#[tactic(auto, using(crate::proofs::Places::place_from_end, crate::proofs::Places::at_most_from_end))]
fn blanks_at_end(text: &[u8]) -> usize
    ensures value { result ≡ position_or_len is_solid (reverse text.now) }
    ensures within { result ≤ length text.now }
{
    or_len(last_solid(text), text.len())
}

fn last_solid(text: &[u8]) -> Option<usize>
    ensures { result ≡ position is_solid (reverse text.now) }
{
    text.iter().rev().position(|c| is_solid(*c))
}

fn or_len(place: Option<usize>, len: usize) -> usize
    ensures { result ≡ unwrap_or place len }
{
    match place {
        Some(place) => place,
        None => len,
    }
}

fn is_blank(c: u8) -> bool
    ensures { result ≡ is_blank c }
{
    c == b' ' || c == b'\t'
}

fn is_solid(c: u8) -> bool
    ensures { result ≡ is_solid c }
{
    !is_blank(c)
}
