//! The two cache levels of one hart: L2, a direct-mapped array of lines, and L1, a direct-mapped set
//! of some of them.
//!
//! No call but `new` takes memory, and none but `new` can fail.
#![tactic(auto)]

pub use levels::Levels;

mod levels;
mod line_set;
