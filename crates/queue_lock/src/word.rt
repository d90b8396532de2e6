//! One lock word.
ghost use Rattle.std.specs.Prelude.{◌≡◌, ◌<◌, [], ◌∷◌, ◌++◌, length, drop, slice_get, Some, IfOk};
ghost use Rattle.circular_buffer.specs.Buffer.{buffer};
ghost use Rattle.queue_lock.specs.Kept.{lock_of, opening_word};
ghost use Rattle.queue_lock.specs.View.{is_ready, raised};

use crate::waiter::Waiter;
use circular_buffer::HeapCircularBuffer;
use dash_base::OutOfMemory;
use std::alloc::Global;

/// A lock word, and room for as many waiters as there may be in all.
#[derive(Drop)]
pub struct LockWord {
    pub value: u32,
    /// Grants and frees so far. It stays at its greatest value.
    pub count: u64,
    /// Those that wait, the first in front.
    pub queue: HeapCircularBuffer<Waiter>,
}

/// One more, but not above the greatest count.
fn raised(count: u64) -> u64
    ensures { result ≡ raised count }
{
    count.saturating_add(1)
}

impl LockWord {
    /// A word that is 0, for which nobody waits.
    pub fn new(alloc: Global, room: u32) -> Result<LockWord, OutOfMemory>
        ensures { IfOk result (λ word. word ≡ opening_word room) }
    {
        let queue = HeapCircularBuffer::with_capacity(alloc, room as usize)?;
        Ok(LockWord {
            value: 0,
            count: 0,
            queue,
        })
    }

    /// Whether the first waiter may have the word.
    pub fn is_ready(&self) -> bool
        ensures { result ≡ is_ready (lock_of self.now) }
    {
        self.value == 0 && !self.queue.is_empty()
    }

    /// Puts a waiter behind the others.
    pub fn ask(&mut self, waiter: Waiter)
        requires { length self.old.queue.items < self.old.queue.capacity }
        ensures { self.new ≡ record self.old {
          queue = buffer (self.old.queue.items ++ waiter ∷ []) self.old.queue.capacity;
        } }
    {
        let _put = self.queue.try_push_back(waiter);
    }

    /// Takes the first waiter out of the queue, which is not empty, and gives it the word.
    pub fn grant(&mut self) -> Waiter
        requires { 0 < length self.old.queue.items }
        ensures first { slice_get self.old.queue.items 0 ≡ Some result }
        ensures after { self.new ≡ record {
          value = result.value;
          count = raised self.old.count;
          queue = buffer (drop 1 self.old.queue.items) self.old.queue.capacity;
        } }
    {
        let waiter = self.queue.pop_front().unwrap();
        self.value = waiter.value;
        self.count = raised(self.count);
        waiter
    }

    /// Sets the word to 0, and answers what it held.
    pub fn free(&mut self) -> u32
        ensures value { result ≡ self.old.value }
        ensures after { self.new ≡ record self.old { value = 0; count = raised self.old.count } }
    {
        let held = self.value;
        self.value = 0;
        self.count = raised(self.count);
        held
    }
}
