//! The caches of a cluster's harts on one snooping bus: one map from lines to their holders, their
//! owner and one copy, kept in the arrays of all harts.
//!
//! No call but `new` takes memory, and none but `new` can fail.
#![tactic(auto)]

pub use bus::Bus;

mod bus;
mod hart_caches;
mod harts;
