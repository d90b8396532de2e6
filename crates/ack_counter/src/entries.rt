//! The entries of a table: a line each, in any order.
ghost use Rattle.std.specs.Prelude.{◌≡◌, ◌<◌, ◌++◌, length, find, filter, not, count_by, slice_index_or, false, if◌then◌else◌, [], ◌∷◌};
ghost use Rattle.ack_counter.specs.Entries.{is_of, is_owed, is_complete, fresh_entry, entry_owing, others, kept_entry};

use arrayvec::ArrayVec;
use dash_base::LineId;

/// A line whose acknowledgements are counted.
#[derive(Clone, Copy, Debug, PartialEq, Eq)]
pub struct Entry {
    pub line: LineId,
    /// How many acknowledgements are expected, once that is known.
    pub expected: Option<u32>,
    /// How many came.
    pub got: u32,
    /// Whether they are owed to each hart of the cluster, by its number there.
    pub owed: [bool; 4],
}

impl Default for Entry {
    /// What fills the places that no line has.
    fn default() -> Entry {
        fresh(LineId(0))
    }
}

/// An entry for which nothing came yet.
pub fn fresh(line: LineId) -> Entry
    ensures { result ≡ fresh_entry line }
{
    Entry {
        line,
        expected: None,
        got: 0,
        owed: [false; 4],
    }
}

/// The same entry, owed to a hart too.
pub fn owing(entry: Entry, hart: u32) -> Entry
    requires { hart < 4 }
    ensures same { result ≡ entry_owing hart entry }
    ensures marks { length entry.owed ≡ 4 }
{
    let mut owed = entry.owed;
    owed[hart as usize] = true;
    Entry { owed, ..entry }
}

/// The entry of a line.
pub fn of_line(entries: &[Entry], line: LineId) -> Option<Entry>
    ensures { result ≡ find (is_of line.0) entries.now }
{
    entries.iter().find(|entry| entry.line == line).copied()
}

/// How many entries are owed to a hart.
pub fn owed_to(entries: &[Entry], hart: u32) -> usize
    ensures { result ≡ count_by (is_owed hart) entries.now }
{
    entries.iter().filter(|entry| owes(entry, hart)).count()
}

/// Whether an entry is owed to a hart.
fn owes(entry: &Entry, hart: u32) -> bool
    ensures { result ≡ is_owed hart entry.now }
{
    entry.owed.get(hart as usize).copied().unwrap_or(false)
}

/// Removes the entry of a line, if there is one.
pub fn remove(entries: &mut ArrayVec<Entry, 16>, line: LineId)
    ensures { entries.new.items ≡ others line.0 entries.old.items }
{
    entries.retain(|entry| entry.line != line);
}

/// Puts an entry in place of the one that its line had.
pub fn put(entries: &mut ArrayVec<Entry, 16>, entry: Entry)
    requires { length (others entry.line.0 entries.old.items) < 16 }
    ensures { entries.new.items ≡ others entry.line.0 entries.old.items ++ entry ∷ [] }
{
    remove(entries, entry.line);
    entries.push(entry);
}

/// The same, but an entry for which all came that is expected is closed.
pub fn settle(entries: &mut ArrayVec<Entry, 16>, entry: Entry)
    requires { length (others entry.line.0 entries.old.items) < 16 }
    ensures { entries.new.items
        ≡ others entry.line.0 entries.old.items ++ kept_entry entry }
{
    if is_complete(&entry) {
        remove(entries, entry.line);
        return;
    }
    put(entries, entry);
}

/// Whether all came that is expected.
fn is_complete(entry: &Entry) -> bool
    ensures { result ≡ is_complete entry.now }
{
    entry.expected == Some(entry.got)
}
