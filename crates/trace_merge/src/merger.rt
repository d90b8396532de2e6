//! The log of the whole machine, merged while the logs of its clusters still grow.
ghost use Rattle.std.specs.Prelude.{◌≡◌, [], IfOk, OnOk, OnErr, length, map};
ghost use Rattle.dash_model.specs.LocalRun.{IsMergeOf};
ghost use Rattle.trace_merge.specs.MergedLogs.{AreLogs, log_of};
ghost use Rattle.trace_merge.specs.Settled.{StartsMerge, StartsSettled, IsSettledPart};
ghost use Rattle.trace_merge.specs.Taking.{AreTaken};

use crate::taking::{take_all, take_settled};
use dash_base::OutOfMemory;
use dash_event::{Event, Logged};
use std::alloc::Global;
use std::marker::Model;

/// What is merged of logs that still grow, one a cluster. An event is merged as soon as it is settled: where
/// no cluster can still write one before it. Contracts see how many logs there are, `clusters`, and the events
/// that were merged, `done`.
#[derive(Drop)]
pub struct Merger {
    done: Vec<Event>,
    /// How many events of each log were merged.
    taken: Vec<usize>,
}

impl Model for Merger {
    ghost use Rattle.std.specs.Prelude.{length};
    ghost use Rattle.trace_merge.specs.Settled.{Merging};
    ghost use Rattle.trace_merge.specs.Taking.{AreTaken};

    ghost Value = { Merging };

    ghost view = { λ m. record { clusters = length m.taken.items; done = m.done.items } };

    ghost invariant = { λ m. AreTaken m.done.items m.taken.items };
}

impl Merger {
    /// Nothing is merged yet of the logs of this many clusters.
    ///
    /// # Errors
    ///
    /// There was no memory for it.
    pub fn new(alloc: Global, clusters: u32) -> Result<Merger, OutOfMemory>
        ensures clusters { IfOk result (λ merger. merger.clusters ≡ clusters) }
        ensures done { IfOk result (λ merger. merger.done ≡ []) }
    {
        let mut taken = Vec::new(alloc);
        for _cluster in 0..clusters {
            taken.push(0)?;
        }
        Ok(Merger {
            done: Vec::new(alloc),
            taken,
        })
    }

    /// Merges what became settled since the last call. Log number c is that of cluster c, its stamps rise, and
    /// it begins with what it had then. It takes a number of steps that grows with the events that are new and
    /// with the clusters, but not with those that are merged.
    ///
    /// # Errors
    ///
    /// There was no memory for these events. The merger stays as it was.
    pub fn add<L: Logged>(&mut self, logs: &[L]) -> Result<(), OutOfMemory>
        requires logs { AreLogs (map L.log logs.now) }
        requires count { length logs.now ≡ self.old.clusters }
        requires starts { StartsSettled (map L.log logs.now) self.old.done }
        ensures clusters { self.new.clusters ≡ self.old.clusters }
        ensures settled { OnOk result (IsSettledPart (map L.log logs.now) self.new.done) }
        ensures same { OnErr result (self.new ≡ self.old) }
    {
        let merged = self.done.len();
        let mut taken = self.taken.clone()?;
        if let Err(error) = take_settled(&mut self.done, &mut taken, logs) {
            self.done.truncate(merged);
            return Err(error);
        }
        self.taken = taken;
        Ok(())
    }

    /// The events that were merged.
    pub fn done(&self) -> &[Event]
        ensures { result.now ≡ self.now.done }
    {
        &self.done
    }

    /// All events of these logs in one log, by their stamps, and those of one stamp by their clusters. Log
    /// number c is that of cluster c, its stamps rise, and it begins with what it had at the last call of `add`.
    ///
    /// # Errors
    ///
    /// There was no memory for the log.
    pub fn finish<L: Logged>(self, logs: &[L]) -> Result<Vec<Event>, OutOfMemory>
        requires logs { AreLogs (map L.log logs.now) }
        requires count { length logs.now ≡ self.clusters }
        requires starts { StartsMerge (map L.log logs.now) self.done }
        ensures { IfOk result (λ merged. IsMergeOf (length logs.now) (log_of (map L.log logs.now)) merged.items) }
    {
        let Merger {
            mut done,
            mut taken,
        } = self;
        take_all(&mut done, &mut taken, logs)?;
        Ok(done)
    }
}
