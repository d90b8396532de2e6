//! When a hart may go on: the conditions of release consistency on its write buffer and on the
//! acknowledgements of its cluster.
//!
//! No call takes memory, and none can fail.
#![tactic(auto)]

pub use release::{may_commit, may_fence};

mod release;
