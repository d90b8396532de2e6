//! Words in the content of a line.
ghost use Rattle.std.specs.Prelude.{◌≡◌, ◌<◌};
ghost use Rattle.dash_model.specs.Config.{place_of};
ghost use Rattle.dash_model.specs.Maps.{raised, most};
ghost use Rattle.dash_model.specs.Words.{word_in, written_in};
ghost use Rattle.unit_rows.specs.Shown.{config};

use crate::site::Site;
use dash_base::{Line, Mask, WordAddr, merge};

/// The word at an address, in the content of its line.
pub fn word_in(site: &Site, word: WordAddr, line: &Line) -> u32
    ensures { result ≡ word_in (config site.now) word.0 line.now }
{
    line.words[place_of(site, word)]
}

/// The content of a line with the bytes of a value written over the word at an address, under a
/// mask, as the line's next version. The last version, 2^64 - 1, stays.
pub fn written(site: &Site, word: WordAddr, mask: Mask, value: u32, line: &Line) -> Line
    ensures { result ≡ written_in (config site.now) word.0 mask value line.now }
{
    let place = place_of(site, word);
    let mut words = line.words;
    words[place] = merge(words[place], mask, value);
    Line {
        words,
        version: raised(line.version),
    }
}

/// The place of an address's word among the words of its line: 0 to 3.
fn place_of(site: &Site, word: WordAddr) -> usize
    ensures place { result ≡ place_of (config site.now) word.0 }
    ensures within { result < 4 }
{
    (word.0.saturating_sub(site.topology.base) % 16 / 4) as usize
}

/// The version after one.
fn raised(version: u64) -> u64
    ensures { result ≡ raised most version }
{
    if version < u64::MAX {
        version + 1
    } else {
        version
    }
}
