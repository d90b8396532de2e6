//! What a cluster may do next.

use dash_base::{ClusterId, LineId};
use dash_msg::Class;

/// One thing that a cluster may do next. Harts are named by their numbers in the cluster, slots by
/// their own, lock words by their numbers in the lock region.
#[derive(Clone, Copy, Debug, PartialEq, Eq)]
pub enum Choice {
    /// A hart does its next instruction.
    Step(u32),
    /// A hart commits its oldest store.
    Commit(u32),
    /// A hart holds a line that its cluster has.
    BusRead(u32, LineId),
    /// A hart owns a line that its cluster owns.
    BusOwn(u32, LineId),
    /// A hart gives up a line, to make room for another.
    Evict(u32, LineId),
    /// A slot asks for the line that its hart needs.
    Ask(u32),
    /// A refused slot asks again.
    Again(u32),
    /// The line that came to a slot is installed.
    Install(u32),
    /// A lock word is granted to who waits for it.
    Grant(u32),
    /// The next message of a lane is taken: by the cluster that sent it, and its class.
    Take(ClusterId, Class),
}
