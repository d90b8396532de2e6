//! The lock words of a home at the start of a run.
ghost use Rattle.std.specs.Prelude.{◌≡◌, ◌<◌, IfOk, length, replicate};
ghost use Rattle.dash_base.specs.Places.{hart_count};
ghost use Rattle.queue_lock.specs.Kept.{IsWordOfEach, opening_word};

use crate::word::LockWord;
use dash_base::{ClusterId, OutOfMemory, Topology};
use std::alloc::Global;

/// Each lock word whose home the cluster is, in the order of their numbers.
pub fn opening_words(
    alloc: Global,
    topology: &Topology,
    cluster: ClusterId,
) -> Result<Vec<LockWord>, OutOfMemory>
    requires { cluster.0 < topology.now.clusters }
    ensures each { IfOk result (λ words. words.items ≡
        replicate (length words.items) (opening_word (hart_count topology.now))) }
    ensures all { IfOk result (λ words.
        IsWordOfEach cluster.0 topology.now.clusters topology.now.locks words.items) }
{
    let count = topology
        .locks
        .saturating_sub(cluster.0)
        .div_ceil(topology.clusters);
    let mut words = Vec::with_capacity(alloc, count as usize)?;
    for _ in 0..count {
        words.push(LockWord::new(alloc, topology.hart_count())?)?;
    }
    Ok(words)
}
