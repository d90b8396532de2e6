//! The counted acknowledgements of a cluster: for each line whose invalidations may still be under
//! way, how many acknowledgements came, how many are expected, and to which harts they are owed.
//!
//! No call takes memory, and none can fail.
#![tactic(auto)]

pub use table::AckTable;

mod entries;
pub mod laws;
mod table;
