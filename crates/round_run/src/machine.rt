//! A machine before its run.
ghost use Rattle.std.specs.Prelude.{◌≡◌, ℕ, ◌<◌, IfOk, Some, vec_len, slice_index_or};
ghost use Rattle.cluster_unit.specs.Wiring.{AreOf};
ghost use Rattle.round_run.specs.Units.{seen, IsMesh};
ghost use Rattle.round_run.specs.Rounds.{AreCounted};

use arbiter::Arbiter;
use cluster_unit::{Unit, units};
use dash_base::{OutOfMemory, Topology};
use elf_load::Image;
use std::alloc::Global;

/// The units of all clusters, with the lanes between them, and how many rounds they did.
#[derive(Drop)]
pub struct Machine {
    pub topology: Topology,
    pub units: Vec<Unit>,
    pub rounds: u64,
    pub ghost mesh: { IsMesh (λ u. seen u.core u.turns u.steps u.ahead) topology units.items },
    pub ghost counted: { AreCounted (λ u. seen u.core u.turns u.steps u.ahead) topology rounds units.items },
}

impl Machine {
    /// A machine at the start of a run. The unit of cluster c chooses by arbiter c; the others are dropped.
    pub fn new(
        alloc: Global,
        topology: &Topology,
        image: &Image,
        arbiters: Vec<Box<dyn Arbiter + Send>>,
    ) -> Result<Machine, OutOfMemory>
        requires { vec_len arbiters ≡ 16 }
        ensures units { IfOk result (λ m. AreOf (λ u. u.core) (record { image = image.now; top = topology.now }) m.units.items) }
        ensures choosers { IfOk result (λ m. (c : ℕ) (u : _) (b : _) → c < topology.now.clusters → (slice_index_or m.units.items c u).chooser.boxed ≡ Some (slice_index_or arbiters.items c b)) }
        ensures rounds { IfOk result (λ m. m.rounds ≡ 0) }
    {
        let mut arbiters = arbiters;
        let mut chosen = Vec::new(alloc);
        for _cluster in 0..topology.clusters {
            chosen.push(Some(arbiters.remove(0)))?;
        }
        let units = units(alloc, topology, image, chosen)?;
        Ok(Machine {
            topology: *topology,
            units,
            rounds: 0,
        })
    }
}
