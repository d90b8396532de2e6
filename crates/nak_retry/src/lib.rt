//! Requests for lines that were refused, and are to be sent again.
//!
//! No call takes memory, and none can fail. Nothing counts how often a request was refused.
#![tactic(auto)]

pub use retry::{next_refused, refused, reissue};

mod retry;
