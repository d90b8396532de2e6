//! Which words can be names.
ghost use Rattle.std.specs.Prelude.{◌≡◌, slice_index};
ghost use Rattle.std.specs.List.{list_all};
ghost use Rattle.std.specs.Char.{is_ascii_alphanumeric};
ghost use Rattle.asm_words.specs.Names.{starts_name, continues_name, is_dotted, is_name, is_plain, is_keyword};

/// Whether a word is a letter or `_`, then letters, digits and `_`, at most 32 bytes in all.
#[tactic(auto, using(std::proofs::lemmas::Bool::Decides::nat_tests), unfolding(crate::specs::Names::is_name))]
pub fn is_name(word: &[u8]) -> bool
    ensures { result ≡ is_name word.now }
{
    starts_name(first_byte(word)) && all_continue(word) && word.len() <= 32
}

/// Whether a word has letters and digits alone, and at least one.
#[tactic(auto, using(std::proofs::lemmas::Bool::Decides::nat_tests), unfolding(crate::specs::Names::is_plain))]
pub fn is_plain(word: &[u8]) -> bool
    ensures { result ≡ is_plain word.now }
{
    0 < word.len() && all_plain(word)
}

/// Whether a word has letters, digits, `_` and `.` alone, and at least one.
#[tactic(auto, using(std::proofs::lemmas::Bool::Decides::nat_tests), unfolding(crate::specs::Names::is_keyword))]
pub fn is_keyword(word: &[u8]) -> bool
    ensures { result ≡ is_keyword word.now }
{
    0 < word.len() && all_dotted(word)
}

/// The first byte, or 0 where there is none.
pub fn first_byte(word: &[u8]) -> u8
    ensures { result ≡ slice_index word.now 0 }
{
    match word {
        [first, ..] => *first,
        [] => 0,
    }
}

fn starts_name(c: u8) -> bool
    ensures { result ≡ starts_name c }
{
    c.is_ascii_alphabetic() || c == b'_'
}

fn continues_name(c: u8) -> bool
    ensures { result ≡ continues_name c }
{
    c.is_ascii_alphanumeric() || c == b'_'
}

fn is_dotted(c: u8) -> bool
    ensures { result ≡ is_dotted c }
{
    continues_name(c) || c == b'.'
}

fn all_continue(word: &[u8]) -> bool
    ensures { result ≡ list_all continues_name word.now }
{
    word.iter().all(|c| continues_name(*c))
}

fn all_plain(word: &[u8]) -> bool
    ensures { result ≡ list_all is_ascii_alphanumeric word.now }
{
    word.iter().all(|c| c.is_ascii_alphanumeric())
}

fn all_dotted(word: &[u8]) -> bool
    ensures { result ≡ list_all is_dotted word.now }
{
    word.iter().all(|c| is_dotted(*c))
}
