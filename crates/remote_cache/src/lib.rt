//! The request slots of a cluster: what its harts have asked other clusters for, and what came.
//!
//! No call takes memory, and none can fail.
#![tactic(auto)]

pub use slot::{Phase, Slot};
pub use slots::Slots;

mod change;
pub mod laws;
mod search;
mod slot;
mod slots;
