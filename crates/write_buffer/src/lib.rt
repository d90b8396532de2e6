//! A hart's write buffer: the stores that it has done and not yet committed, first in first out.
//!
//! No call but `new` takes memory, and none but `new` and `try_put` can fail.
#![tactic(auto)]

pub use buffer::Buffer;
pub use entry::{Entry, Look};

mod buffer;
mod entry;
mod search;
