//! The slot that a prefetch hint opens.
//!
//! No call takes memory, and none can fail.
#![tactic(auto)]

pub use choice::choose;

mod choice;
