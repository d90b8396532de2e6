//! Lanes: the queues on which messages go from one cluster to one other, a class at a time.
//!
//! A lane has two ends, and each may stand on a thread of its own. The sending end has a spool for
//! what the ring between them has no room for. No call but `lane` and `reserve` takes memory, and none
//! waits for the other end.
#![tactic(auto)]

pub use ends::lane;
pub use inlet::Inlet;
pub use meeting::{meet, meet_and_flush};
pub use outlet::Outlet;

mod ends;
mod inlet;
mod meeting;
mod outlet;
