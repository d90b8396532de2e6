//! The log of the whole machine: what it shows, and the law that the logs of properly labelled programs
//! are sequentially consistent.
#![tactic(auto)]

pub use log::{accesses, console};
pub use merger::Merger;
pub use merging::merge;

pub mod laws;
mod log;
mod merger;
mod merging;
mod taking;
