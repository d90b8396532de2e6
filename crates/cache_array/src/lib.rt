//! A direct-mapped array of lines: a finite map from lines to their copies, in which at most one
//! line stands at each index `line mod lines`.
//!
//! No call but `new` takes memory, and none but `new` can fail.
#![tactic(auto)]

pub use array::Array;

mod array;
mod places;
