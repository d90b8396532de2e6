//! The units of a machine at the start of a run.
ghost use Rattle.std.specs.Prelude.{◌≡◌, ℕ, ◌<◌, length, slice_index_or, IfOk};
ghost use Rattle.cluster_unit.specs.Fresh.{AreLanes};
ghost use Rattle.cluster_unit.specs.Wiring.{AreOf, AreWired, AreUnused};

use crate::fresh_lanes::Lanes;
use crate::unit::Unit;
use arbiter::Arbiter;
use dash_base::{ClusterId, OutOfMemory, Topology};
use elf_load::Image;
use std::alloc::Global;
use unit_rows::Site;

/// The units of all clusters of a machine at the start of a run of an image, in the order of the
/// clusters, with the lanes between them. Each takes the next of these boxes by which it chooses, or
/// none; there is one for each cluster.
pub fn units(
    alloc: Global,
    topology: &Topology,
    image: &Image,
    arbiters: Vec<Option<Box<dyn Arbiter + Send>>>,
) -> Result<Vec<Unit>, OutOfMemory>
    requires { length arbiters.items ≡ topology.now.clusters }
    ensures of { IfOk result (λ units. AreOf (λ u. u.core) (record { image = image.now; top = topology.now }) units.items) }
    ensures wired { IfOk result (λ units. AreWired (λ u. u.core) units.items) }
    ensures unused { IfOk result (λ units. AreUnused (λ u. u.core) units.items) }
    ensures choosers { IfOk result (λ units. (c : ℕ) (d : _) (b : _) → c < length units.items → ((slice_index_or units.items c d).chooser.boxed ≡ slice_index_or arbiters.items c b) × ((slice_index_or units.items c d).chooser.rotate ≡ 0)) }
    ensures counts { IfOk result (λ units. (c : ℕ) (d : _) → c < length units.items → ((slice_index_or units.items c d).turns ≡ 0) × ((slice_index_or units.items c d).steps ≡ 0) × ((slice_index_or units.items c d).ahead ≡ 0)) }
{
    let mut lanes = Lanes::new(alloc, topology.clusters)?;
    let mut arbiters = arbiters;
    let mut units = Vec::new(alloc);
    for cluster in 0..topology.clusters {
        let site = Site {
            image: image.copy(alloc)?,
            topology: *topology,
            cluster: ClusterId(cluster),
        };
        let outlets = lanes.outlets.remove(0);
        let inlets = lanes.inlets.remove(0);
        let unit = Unit::new(alloc, site, outlets, inlets, arbiters.remove(0))?;
        units.push(unit)?;
    }
    Ok(units)
}
