//! Where things stand in the machine: harts in clusters, words in lines, lines and lock words at
//! their homes, and a cluster's request slots.
ghost use Rattle.std.specs.Prelude.{◌≡◌, ◌<◌, ◌≤◌};
ghost use Rattle.dash_base.specs.Places.{home_among, first_prefetch};

use crate::id::{ClusterId, HartId, LineId, WordAddr};
use crate::topology::Topology;

impl Topology {
    ghost use Rattle.std.specs.Prelude.{◌≡◌, ◌<◌};
    ghost use Rattle.dash_base.specs.Places.{hart_count, cluster_of, line_count, line_of, address_of};

    /// Harts of the whole machine: 1 to 64.
    pub fn hart_count(&self) -> u32
        ensures { result ≡ hart_count self.now }
    {
        self.clusters * self.harts
    }

    /// The cluster that a hart stands in.
    pub fn cluster_of(&self, hart: HartId) -> ClusterId
        ensures { result ≡ cluster_of self.now hart }
    {
        ClusterId(hart.0 / self.harts)
    }

    /// Lines of memory, of 16 bytes each.
    pub fn line_count(&self) -> u32
        ensures { result ≡ line_count self.now }
    {
        self.memory / 16
    }

    /// The line that a word of memory is in. Of an address below memory it is line 0.
    pub fn line_of(&self, word: WordAddr) -> LineId
        ensures { result ≡ line_of self.now word }
    {
        LineId(word.0.saturating_sub(self.base) / 16)
    }

    /// The address of the first byte of a line.
    pub fn address_of(&self, line: LineId) -> u32
        requires { line.0 < line_count self.now }
        ensures { result ≡ address_of self.now line.0 }
    {
        self.base + 16 * line.0
    }
}

/// The home of the line, or of the lock word, with a number, among so many clusters: both go round
/// the clusters.
pub fn home_among(clusters: u32, number: u32) -> ClusterId
    requires { 0 < clusters }
    ensures { result.0 ≡ home_among clusters number }
{
    ClusterId(number % clusters)
}

/// The first slot for prefetches in a cluster of 1 to 4 harts: a slot for each hart's loads and
/// atomic operations, and one for each hart's stores, stand before it.
pub fn first_prefetch(harts: u32) -> u32
    requires { harts ≤ 4 }
    ensures { result ≡ first_prefetch harts }
{
    2 * harts
}
