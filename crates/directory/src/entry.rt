//! Directory entries.
ghost use Rattle.std.specs.Prelude.{◌≡◌, ◌<◌};
ghost use Rattle.directory.specs.Sharers.{only, with_sharer, is_sharer};

use dash_base::ClusterId;

/// What the home knows of the copies of a line.
#[derive(Clone, Copy, Debug, PartialEq, Eq)]
pub enum EntryState {
    /// No cluster has a copy.
    Uncached,
    /// Each cluster whose bit is set may have a copy that is memory's content: bit `c` for cluster `c`.
    Shared(u64),
    /// The cluster owns the line, and memory's content may be old.
    Dirty(ClusterId),
}

/// One cluster as sharers.
pub fn only(cluster: ClusterId) -> u64
    requires { cluster.0 < 64 }
    ensures { result ≡ only cluster.0 }
{
    1 << cluster.0
}

/// Sharers, and one cluster besides.
pub fn with_sharer(sharers: u64, cluster: ClusterId) -> u64
    requires { cluster.0 < 64 }
    ensures { result ≡ with_sharer sharers cluster.0 }
{
    sharers | 1 << cluster.0
}

/// Whether a cluster is one of the sharers.
pub fn is_sharer(sharers: u64, cluster: u32) -> bool
    requires { cluster < 64 }
    ensures { result ≡ is_sharer sharers cluster }
{
    (sharers >> cluster) % 2 == 1
}
