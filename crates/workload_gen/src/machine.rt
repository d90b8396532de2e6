//! The machine of the workload.
ghost use Rattle.workload_gen.specs.Workload.{IsMachine};

use dash_base::{Sizes, Topology};

/// The topology that the workload runs on: 16 clusters of 4 harts, a budget of 30,000 instructions for each
/// hart, 65,536 bytes of memory, a lock word for each of the 64 counters, and every other key at its default.
pub fn topology() -> Topology
    ensures { IsMachine result }
{
    Topology {
        clusters: 16,
        harts: 4,
        budget: 30_000,
        memory: 65_536,
        locks: 64,
        base: 0,
        l2: 256,
        l1: 16,
        buffer: 4,
        acks: 4,
        prefetch: 2,
        stack: 256,
    }
}
