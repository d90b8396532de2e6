//! The lock words of a home.
ghost use Rattle.std.specs.Prelude.{◌≡◌, ◌<◌, true, nat_lt, IfOk, Some, slice_get};
ghost use Rattle.dash_base.specs.declared.topology.Topology.{Topology};
ghost use Rattle.queue_lock.specs.View.{LocksView, is_own, lock_at, is_ready, waiting, IsWhole};
ghost use Rattle.queue_lock.specs.Kept.{lock_of};
ghost use Rattle.queue_lock.specs.Steps.{IsOpening, after_ask, after_grant, after_free};

use crate::opening;
use crate::waiter::Waiter;
use crate::word::LockWord;
use dash_base::{ClusterId, OutOfMemory, Topology, home_among};
use std::alloc::Global;
use std::marker::Model;

/// The lock words whose home a cluster is: those whose number in the lock region, modulo the number
/// of clusters, is the cluster's. Contracts see the cluster, how many clusters, lock words and harts
/// the machine has, and a map from the numbers of those words to what each holds, how often it was
/// granted or freed, and who waits for it. No more wait in all than the machine has harts.
#[derive(Drop)]
pub struct Locks {
    cluster: u32,
    clusters: u32,
    locks: u32,
    harts: u32,
    words: Vec<LockWord>,
    waiting: u32,
}

impl Model for Locks {
    ghost use Rattle.queue_lock.specs.View.{LocksView, view_code};

    ghost Value = { LocksView };

    ghost coded = { view_code };

    ghost use Rattle.queue_lock.specs.Kept.{locks_of, AreKept};

    ghost view = { λ l. locks_of l.cluster l.clusters l.locks l.harts l.words.items };

    ghost invariant = { λ l. AreKept l.cluster l.clusters l.locks l.harts l.words.items l.waiting };
}

impl Locks {
    /// The lock words of a cluster at the start: each is 0, and nobody waits. It takes all the memory
    /// that as many waiters as there are harts can need.
    pub fn new(alloc: Global, topology: &Topology, cluster: ClusterId) -> Result<Locks, OutOfMemory>
        requires { cluster.0 < topology.now.clusters }
        ensures { IfOk result (λ locks. IsOpening topology.now cluster.0 locks) }
    {
        let words = opening::opening_words(alloc, topology, cluster)?;
        Ok(Locks {
            cluster: cluster.0,
            clusters: topology.clusters,
            locks: topology.locks,
            harts: topology.hart_count(),
            words,
            waiting: 0,
        })
    }

    /// What all lock words of a home keep: they are just those of this home, and no more wait than
    /// there are harts. The call does nothing.
    pub fn keeps_its_words(&self)
        ensures { IsWhole self.now }
    {
        let _words = &self.words;
    }

    /// Whether a number is that of a lock word of this home. Each number of a call is.
    pub fn is_own(&self, i: u32) -> bool
        ensures { result ≡ is_own self.now i }
    {
        i < self.locks && home_among(self.clusters, i).0 == self.cluster
    }

    /// Whether one more may wait: fewer do than the machine has harts.
    pub fn has_room(&self) -> bool
        ensures { result ≡ nat_lt (waiting self.now) self.now.harts }
    {
        self.waiting < self.harts
    }

    /// A hart asks for a word: it waits behind the others. There has to be room, as `has_room` says.
    pub fn ask(&mut self, i: u32, waiter: Waiter)
        requires own { is_own self.old i ≡ true }
        requires room { waiting self.old < self.old.harts }
        ensures { self.new ≡ after_ask self.old i waiter }
    {
        let clusters = self.clusters;
        let word = &mut self.words[(i / clusters) as usize];
        word.ask(waiter);
        self.waiting += 1;
    }

    /// Whether a word may be granted: it is 0, and someone waits for it.
    pub fn ready(&self, i: u32) -> bool
        requires { is_own self.now i ≡ true }
        ensures { result ≡ is_ready (lock_at self.now i) }
    {
        self.word(i).is_ready()
    }

    /// Grants a word, which is `ready`: the first waiter leaves the queue, and the word is what it
    /// asked for.
    pub fn grant(&mut self, i: u32) -> Waiter
        requires own { is_own self.old i ≡ true }
        requires ready { is_ready (lock_at self.old i) ≡ true }
        ensures first { slice_get (lock_at self.old i).queue 0 ≡ Some result }
        ensures after { self.new ≡ after_grant self.old i result }
    {
        let clusters = self.clusters;
        let word = &mut self.words[(i / clusters) as usize];
        let waiter = word.grant();
        self.waiting -= 1;
        waiter
    }

    /// Frees a word: it is 0, and what it held is answered. Nobody joins or leaves its queue.
    pub fn free(&mut self, i: u32) -> u32
        requires { is_own self.old i ≡ true }
        ensures old { result ≡ (lock_at self.old i).value }
        ensures after { self.new ≡ after_free self.old i }
    {
        let clusters = self.clusters;
        let word = &mut self.words[(i / clusters) as usize];
        word.free()
    }

    /// What a word holds.
    pub fn value(&self, i: u32) -> u32
        requires { is_own self.now i ≡ true }
        ensures { result ≡ (lock_at self.now i).value }
    {
        self.word(i).value
    }

    /// How often a word was granted or freed. The number stays at its greatest value, `u64::MAX`.
    pub fn served(&self, i: u32) -> u64
        requires { is_own self.now i ≡ true }
        ensures { result ≡ (lock_at self.now i).count }
    {
        self.word(i).count
    }

    /// How many wait in the queues of all words of this home.
    pub fn waiting(&self) -> u32
        ensures { result ≡ waiting self.now }
    {
        self.waiting
    }

    fn word(&self, i: u32) -> &LockWord
        requires { is_own self.now i ≡ true }
        ensures { lock_of result.now ≡ lock_at self.now i }
    {
        &self.words[(i / self.clusters) as usize]
    }
}
