//! Where a unit stands.
ghost use Rattle.std.specs.Prelude.{◌<◌};

use dash_base::{ClusterId, HartId, Topology};
use elf_load::Image;

/// What a unit runs, and which cluster of the machine it is. No event changes it.
#[derive(Drop)]
pub struct Site {
    pub image: Image,
    pub topology: Topology,
    pub cluster: ClusterId,
    pub ghost in_range: { cluster.0 < topology.clusters },
}

impl Site {
    ghost use Rattle.std.specs.Prelude.{◌≡◌, ◌+◌, ◌*◌};

    /// The number in the machine of a hart of the cluster, by its number there.
    pub fn hart_id(&self, hart: u32) -> HartId
        requires { hart < self.now.topology.harts }
        ensures { result ≡ record { 0 = self.now.cluster.0 * self.now.topology.harts + hart } }
    {
        HartId(self.cluster.0 * self.topology.harts + hart)
    }
}
