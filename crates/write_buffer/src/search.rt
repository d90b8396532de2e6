//! What the entries of a buffer say of a word.
ghost use Rattle.std.specs.Prelude.{◌≡◌};
ghost use Rattle.std.specs.List.{list_any};
ghost use Rattle.write_buffer.specs.Look.{has_word, newest_of, covers, look_by};

use crate::entry::{Entry, Look};
use circular_buffer::HeapCircularBuffer;
use dash_base::{Mask, WordAddr};

/// Whether an entry has the word.
pub fn has(entries: &HeapCircularBuffer<Entry>, word: WordAddr) -> bool
    ensures { result ≡ list_any (has_word word.0) entries.now.items }
{
    entries.iter().any(|entry| entry.word == word)
}

/// The newest entry that has the word.
pub fn newest(entries: &HeapCircularBuffer<Entry>, word: WordAddr) -> Option<Entry>
    ensures { result ≡ newest_of word.0 entries.now.items }
{
    entries.iter().rfind(|entry| entry.word == word).copied()
}

/// Whether a mask has every byte of another.
fn covers(mask: Mask, asked: Mask) -> bool
    ensures { result ≡ covers mask asked }
{
    mask.bits() & asked.bits() == asked.bits()
}

/// What a load of the asked bytes is told where this is the newest entry that has their word.
pub fn shown(newest: Option<Entry>, asked: Mask) -> Look
    ensures { result ≡ look_by newest asked }
{
    match newest {
        None => Look::None,
        Some(entry) if covers(entry.mask, asked) => Look::Hit {
            value: entry.value,
            number: entry.number,
        },
        Some(_) => Look::Wait,
    }
}
