//! The buffer.
ghost use Rattle.std.specs.Prelude.{◌≡◌, ◌<◌, ◌≤◌, ◌^◌, [], ◌∷◌, ◌++◌, length, drop, slice_get, IfOk, IfErr, OnOk, IsOk, ◌↔◌};
ghost use Rattle.std.specs.List.{list_any};
ghost use Rattle.circular_buffer.specs.Buffer.{buffer};
ghost use Rattle.write_buffer.specs.Look.{has_word, newest_of, look_by};

use crate::entry::{Entry, Look};
use crate::search;
use circular_buffer::HeapCircularBuffer;
use dash_base::{Mask, OutOfMemory, WordAddr};
use std::alloc::Global;
use std::marker::Model;

/// A write buffer. Contracts see its entries as a list, `items`, the oldest first, and the most
/// that there may be, `capacity`.
#[derive(Drop)]
pub struct Buffer {
    entries: HeapCircularBuffer<Entry>,
}

impl Model for Buffer {
    ghost use Rattle.write_buffer.specs.View.{BufferView, view_code};

    ghost Value = { BufferView };

    ghost coded = { view_code };

    ghost use Rattle.std.specs.Prelude.{◌<◌, ◌^◌};

    ghost view = { λ b. b.entries };

    ghost invariant = { λ b. b.entries.capacity < 2 ^ 32 };
}

impl Buffer {
    /// An empty buffer of at most `capacity` entries.
    pub fn new(alloc: Global, capacity: u32) -> Result<Buffer, OutOfMemory>
        ensures { IfOk result (λ made. made ≡ buffer [] capacity) }
    {
        let entries = HeapCircularBuffer::with_capacity(alloc, capacity as usize)?;
        Ok(Buffer { entries })
    }

    /// Appends an entry. A full buffer hands it back.
    pub fn try_put(&mut self, entry: Entry) -> Result<(), Entry>
        ensures fits { IsOk result ↔ (length self.old.items < self.old.capacity) }
        ensures put { OnOk result (self.new ≡ buffer (self.old.items ++ entry ∷ []) self.old.capacity) }
        ensures full { IfErr result (λ back. (back ≡ entry) × (self.new ≡ self.old)) }
    {
        self.entries.try_push_back(entry)
    }

    /// The oldest entry. `None` where there is none.
    pub fn head(&self) -> Option<Entry>
        ensures { result ≡ slice_get self.now.items 0 }
    {
        self.entries.front().copied()
    }

    /// Removes the oldest entry. `head` says whether there is one.
    pub fn drop_head(&mut self)
        requires { 0 < length self.old.items }
        ensures { self.new ≡ buffer (drop 1 self.old.items) self.old.capacity }
    {
        self.entries.pop_front();
    }

    /// How many entries there are.
    pub fn len(&self) -> u32
        ensures len { result ≡ length self.now.items }
        ensures within { (result ≤ self.now.capacity) × (self.now.capacity < 2 ^ 32) }
    {
        self.entries.len() as u32
    }

    /// Whether an entry has the word.
    pub fn has(&self, word: WordAddr) -> bool
        ensures { result ≡ list_any (has_word word.0) self.now.items }
    {
        search::has(&self.entries, word)
    }

    /// What a load of these bytes of the word is told. The newest entry that has the word decides.
    pub fn look(&self, word: WordAddr, mask: Mask) -> Look
        ensures { result ≡ look_by (newest_of word.0 self.now.items) mask }
    {
        search::shown(search::newest(&self.entries, word), mask)
    }
}
