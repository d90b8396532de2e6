//! The table.
ghost use Rattle.std.specs.Prelude.{◌≡◌, ◌<◌, ◌≤◌, ◌^◌, ◌+◌};
ghost use Rattle.std.specs.Option.{ForSome};
ghost use Rattle.dash_base.specs.Bounds.{IsBetween};
ghost use Rattle.ack_counter.specs.View.{count, has_room, is_none_pending, is_pending, got_at, owed_to};
ghost use Rattle.ack_counter.specs.Steps.{empty_table, begun, cancelled, granted, acked, owing};

use crate::entries::{self, Entry};
use arrayvec::ArrayVec;
use dash_base::LineId;
use std::marker::Model;

/// The acknowledgements that a cluster counts. Contracts see how many entries there may be, and a
/// finite map from lines to entries: how many acknowledgements are expected, if that is known, how
/// many came, and the set of harts to which they are owed, by their numbers in the cluster.
#[derive(Drop)]
pub struct AckTable {
    capacity: u32,
    entries: ArrayVec<Entry, 16>,
}

impl Model for AckTable {
    ghost use Rattle.ack_counter.specs.View.{TableView, table_code};

    ghost Value = { TableView };

    ghost coded = { table_code };

    ghost use Rattle.ack_counter.specs.Entries.{map_of, AreKept};

    ghost view = { λ t. record { capacity = t.capacity; entries = map_of t.entries.items } };

    ghost invariant = { λ t. AreKept t.capacity t.entries.items };
}

impl AckTable {
    /// An empty table of 1 to 16 entries.
    pub fn new(entries: u32) -> AckTable
        requires { IsBetween 1 16 entries }
        ensures { result ≡ empty_table entries }
    {
        AckTable {
            capacity: entries,
            entries: ArrayVec::new(),
        }
    }

    /// What all tables keep: no more lines have entries than there may be. The call does nothing.
    pub fn keeps_to_its_capacity(&self)
        ensures { count self.now ≤ self.now.capacity }
    {
        let _entries = &self.entries;
    }

    /// Whether there may be an entry more.
    pub fn free(&self) -> bool
        ensures { result ≡ has_room self.now }
    {
        self.entries.len() < self.capacity as usize
    }

    /// Whether no line has an entry.
    pub fn is_empty(&self) -> bool
        ensures { result ≡ is_none_pending self.now }
    {
        self.entries.is_empty()
    }

    /// A line's acknowledgements are counted from here on: its entry is a fresh one, also where the
    /// line had one before. `free` says whether there is room.
    pub fn begin(&mut self, line: LineId)
        requires { count self.old < self.old.capacity }
        ensures { self.new ≡ begun self.old line.0 }
    {
        entries::put(&mut self.entries, entries::fresh(line));
    }

    /// Removes the entry of a line, if there is one.
    pub fn cancel(&mut self, line: LineId)
        ensures { self.new ≡ cancelled self.old line.0 }
    {
        entries::remove(&mut self.entries, line);
    }

    /// So many acknowledgements of a line are expected. Where as many came the entry is closed. A
    /// line without an entry has none afterwards.
    pub fn grant(&mut self, line: LineId, count: u32)
        ensures { self.new ≡ granted self.old line.0 count }
    {
        let Some(entry) = entries::of_line(&self.entries, line) else {
            return;
        };
        let expected = Some(count);
        entries::settle(&mut self.entries, Entry { expected, ..entry });
    }

    /// One more acknowledgement of a line came. Where it is the last that is expected the entry is
    /// closed. A line without an entry has none afterwards.
    pub fn ack(&mut self, line: LineId)
        requires { ForSome (got_at self.old line.0) (λ got. got + 1 < 2 ^ 32) }
        ensures { self.new ≡ acked self.old line.0 }
    {
        let Some(entry) = entries::of_line(&self.entries, line) else {
            return;
        };
        let got = entry.got + 1;
        entries::settle(&mut self.entries, Entry { got, ..entry });
    }

    /// The acknowledgements of a line are owed to a hart of the cluster too, where the line has an
    /// entry.
    pub fn owe(&mut self, line: LineId, hart: u32)
        requires { hart < 4 }
        ensures { self.new ≡ owing self.old line.0 hart }
    {
        let Some(entry) = entries::of_line(&self.entries, line) else {
            return;
        };
        entries::put(&mut self.entries, entries::owing(entry, hart));
    }

    /// How many lines have acknowledgements that are owed to a hart of the cluster.
    pub fn owed(&self, hart: u32) -> u32
        requires { hart < 4 }
        ensures { result ≡ owed_to self.now hart }
    {
        entries::owed_to(&self.entries, hart) as u32
    }

    /// Whether a line has an entry.
    pub fn pending(&self, line: LineId) -> bool
        ensures { result ≡ is_pending self.now line.0 }
    {
        entries::of_line(&self.entries, line).is_some()
    }

    /// How many acknowledgements of a line came. `None` where it has no entry.
    pub fn got(&self, line: LineId) -> Option<u32>
        ensures { result ≡ got_at self.now line.0 }
    {
        entries::of_line(&self.entries, line).map(|entry| entry.got)
    }
}
