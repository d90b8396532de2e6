//! Machines in rounds: that their clusters work beside each other, and how a run ends.

use crate::reports::{KEPT, OK, SPIN, file};
use arbiter::{Arbiter, Rotate, Script};
use dash_base::{ClusterId, Topology};
use elf_load::{MemoryMap, load};
use round_run::{Cause, Finished, Gate, Machine, OpenGate, run_rounds};
use std::alloc::{AllocError, Global};
use std::sync::Wait;
use std::sync::atomic::{AtomicU64, Ordering};
use std::test::Fail;
use std::thread::{Threads, yield_now};
use trace_merge::console;

/// How often a cluster looks for the others before it gives up.
const TRIES: u32 = 10_000_000;

/// A gate at which so many clusters wait for each other in the first round.
#[derive(Drop)]
struct Meeting {
    awaited: u64,
    came: AtomicU64,
    met: AtomicU64,
}

impl Gate for Meeting {
    fn pass(&self, _cluster: ClusterId, round: u64) {
        if round != 0 {
            return;
        }
        self.came.fetch_add(1, Ordering::SeqCst);
        for _try in 0..TRIES {
            if self.came.load(Ordering::SeqCst) >= self.awaited {
                self.met.fetch_add(1, Ordering::SeqCst);
                return;
            }
            yield_now();
        }
    }
}

/// Sixteen arbiters, which choose in rotation or retire at once.
fn arbiters(alloc: Global, retire: bool) -> Result<Vec<Box<dyn Arbiter + Send>>, AllocError> {
    let mut arbiters: Vec<Box<dyn Arbiter + Send>> = Vec::new(alloc);
    for _cluster in 0..16 {
        if retire {
            arbiters.push(Box::new(alloc, Script::new(Vec::new(alloc)))?)?;
        } else {
            arbiters.push(Box::new(alloc, Rotate::new())?)?;
        }
    }
    Ok(arbiters)
}

/// A run of these words on so many clusters, of so many harts each.
fn run<R: Threads + Wait + Sync, G: Gate>(
    rt: &R,
    alloc: Global,
    words: &[u32],
    clusters: u32,
    harts: u32,
    retire: bool,
    gate: &G,
) -> Result<Finished, Fail> {
    let topology = Topology::simple(clusters, harts, 100)?;
    let map = MemoryMap {
        base: topology.base,
        size: topology.memory,
    };
    let bytes = file(alloc, words)?;
    let image = load(alloc, &bytes, map)?;
    let arbiters = arbiters(alloc, retire)?;
    if arbiters.len() != 16 {
        return Err(AllocError)?;
    }
    let machine = Machine::new(alloc, &topology, &image, arbiters)?;
    Ok(run_rounds(rt, alloc, machine, gate)?)
}

#[test]
fn clusters_work_beside_each_other(rt: HostRuntime) -> Result<(), Fail> {
    for clusters in [2, 3] {
        let meeting = Meeting {
            awaited: u64::from(clusters),
            came: AtomicU64::new(0),
            met: AtomicU64::new(0),
        };
        let finished = run(&rt, rt.alloc(), &OK, clusters, 1, false, &meeting)?;
        assert_eq!(rt; finished.cause, Cause::Exited);
        assert_eq!(rt; meeting.came.load(Ordering::SeqCst), u64::from(clusters));
        assert_eq!(rt; meeting.met.load(Ordering::SeqCst), u64::from(clusters));
    }
    Ok(())
}

#[test]
fn a_box_that_retires_at_once_leaves_the_rotation(rt: HostRuntime) -> Result<(), Fail> {
    let alloc = rt.alloc();
    for image in [OK.as_slice(), KEPT.as_slice(), SPIN.as_slice()] {
        let rotated = run(&rt, alloc, image, 1, 2, false, &OpenGate)?;
        let retired = run(&rt, alloc, image, 1, 2, true, &OpenGate)?;
        assert!(rt; !rotated.log.is_empty());
        assert!(rt; rotated.log.as_slice() == retired.log.as_slice());
        assert_eq!(rt; rotated.rounds, retired.rounds);
        assert_eq!(rt; rotated.cause, retired.cause);
        assert!(rt; rotated.waits.as_slice() == retired.waits.as_slice());
    }
    let finished = run(&rt, alloc, &OK, 1, 1, true, &OpenGate)?;
    let shown = console(alloc, finished.log.as_slice())?;
    assert_eq!(rt; shown.as_slice(), b"ok".as_slice());
    for unit in &finished.units {
        assert!(rt; unit.core.harts() > 0);
        let hart = unit.core.hart(0);
        assert_eq!(rt; (hart.pc(), hart.retired()), (0x1_001c, 8));
        assert_eq!(rt; (hart.registers()[10], hart.registers()[17]), (0, 93));
    }
    Ok(())
}

#[test]
fn each_run_ends_for_its_cause(rt: HostRuntime) -> Result<(), Fail> {
    let alloc = rt.alloc();
    let trap: &[u32] = &[0x0000_0073];
    let cases: [(&[u32], Cause, usize); 4] = [
        (&OK, Cause::Exited, 0),
        (&SPIN, Cause::Budget, 0),
        (trap, Cause::Trapped, 0),
        (&KEPT, Cause::Deadlock, 1),
    ];
    for (image, cause, waiting) in cases {
        for (clusters, harts, retire) in [(1, 2, false), (2, 1, false), (2, 1, true)] {
            let finished = run(&rt, alloc, image, clusters, harts, retire, &OpenGate)?;
            assert_eq!(rt; finished.cause, cause, "{clusters} clusters");
            let mut waits = 0_usize;
            for wait in &finished.waits {
                waits = waits.saturating_add(usize::from(*wait));
            }
            assert_eq!(rt;
                (finished.waits.len(), waits),
                (2, waiting),
                "{clusters} clusters, {cause:?}"
            );
            assert!(rt; finished.rounds > 0, "{clusters} clusters, {cause:?}");
            assert_eq!(rt; finished.units.len(), clusters as usize);
            assert!(rt; !finished.log.is_empty(), "{clusters} clusters, {cause:?}");
        }
    }
    Ok(())
}
