//! Random calls against a plain list, and calls by hand.

use dash_base::{Mask, WordAddr};
use std::test::Fail;
use write_buffer::{Buffer, Entry, Look};

/// Whether a mask has each byte of another, one byte after the other.
fn has_each(mask: Mask, asked: Mask) -> bool {
    [1, 2, 4, 8].iter().all(|byte| asked.bits() & *byte == 0 || mask.bits() & *byte != 0)
}

/// What a list of entries tells, gone over from the oldest, so that the newest has the last word.
fn plain_look(entries: &[Entry], word: WordAddr, mask: Mask) -> Look {
    let mut look = Look::None;
    for entry in entries {
        if entry.word == word {
            look = if has_each(entry.mask, mask) {
                Look::Hit {
                    value: entry.value,
                    number: entry.number,
                }
            } else {
                Look::Wait
            };
        }
    }
    look
}

/// The answers of a list of entries: what is told of the word, whether an entry has it, the head and
/// the length.
fn plain_answers(
    entries: &[Entry],
    word: WordAddr,
    mask: Mask,
) -> (Look, bool, Option<Entry>, usize) {
    (
        plain_look(entries, word, mask),
        entries.iter().any(|entry| entry.word == word),
        entries.first().copied(),
        entries.len(),
    )
}

/// The next number of a fixed sequence, below 2^31 (Knuth's MMIX constants).
fn random(state: &mut u64) -> u32 {
    *state = state
        .wrapping_mul(6_364_136_223_846_793_005)
        .wrapping_add(1_442_695_040_888_963_407);
    (*state >> 33) as u32
}

/// A store to one of four words.
fn random_entry(state: &mut u64, number: u32) -> Entry {
    Entry {
        number,
        word: WordAddr(random(state) % 4 * 4),
        mask: Mask::new(random(state) % 16),
        value: random(state),
    }
}

#[test]
fn random_calls_meet_a_plain_list(rt: HostRuntime) -> Result<(), Fail> {
    for (seed, capacity) in [(1, 1_u32), (2, 2), (3, 4), (4, 16), (5, 3)] {
        let mut state = seed;
        let mut buffer = Buffer::new(rt.alloc(), capacity)?;
        let mut plain = Vec::new(rt.alloc());
        for number in 1..400_u32 {
            let entry = random_entry(&mut state, number);
            if random(&mut state) % 8 < 5 {
                let room = plain.len() < capacity as usize;
                let put = buffer.try_put(entry);
                assert_eq!(rt;
                    put,
                    if room { Ok(()) } else { Err(entry) },
                    "seed {seed}, step {number}"
                );
                if room {
                    plain.push(entry)?;
                }
            } else if 0 < buffer.len() && 0 < plain.len() {
                buffer.drop_head();
                plain.remove(0);
            }
            let word = WordAddr(random(&mut state) % 4 * 4);
            let mask = Mask::new(random(&mut state) % 16);
            assert_eq!(rt;
                (
                    buffer.look(word, mask),
                    buffer.has(word),
                    buffer.head(),
                    buffer.len() as usize
                ),
                plain_answers(&plain, word, mask),
                "seed {seed}, step {number}"
            );
        }
    }
    Ok(())
}

/// A store of this number to a word.
fn store(number: u32, word: u32, mask: u32) -> Entry {
    Entry {
        number,
        word: WordAddr(word),
        mask: Mask::new(mask % 16),
        value: number,
    }
}

#[test]
fn a_full_buffer_hands_the_entry_back(rt: HostRuntime) -> Result<(), Fail> {
    let mut buffer = Buffer::new(rt.alloc(), 1)?;
    assert_eq!(rt; buffer.head(), None);
    for (entry, put) in [
        (store(1, 0, 15), Ok(())),
        (store(2, 4, 15), Err(store(2, 4, 15))),
    ] {
        assert_eq!(rt; buffer.try_put(entry), put);
    }
    assert_eq!(rt; buffer.head(), Some(store(1, 0, 15)));
    Ok(())
}

#[test]
fn the_newest_store_decides_in_the_largest_buffer(rt: HostRuntime) -> Result<(), Fail> {
    let mut buffer = Buffer::new(rt.alloc(), 16)?;
    for number in 1..16 {
        assert_eq!(rt; buffer.try_put(store(number, 8, 15)), Ok(()));
    }
    assert_eq!(rt; buffer.try_put(store(16, 8, 3)), Ok(()));
    assert_eq!(rt; buffer.len(), 16);
    let newest = Look::Hit {
        value: 16,
        number: 16,
    };
    for (word, mask, look) in [
        (8, 3, newest),
        (8, 1, newest),
        (8, 15, Look::Wait),
        (8, 12, Look::Wait),
        (4, 15, Look::None),
    ] {
        assert_eq!(rt; buffer.look(WordAddr(word), Mask::new(mask % 16)), look);
    }
    Ok(())
}
