//! Who chooses: which of the things that a cluster can do next it does.
//!
//! No call takes memory. A box that has no more to say retires, and is dropped there.
#![tactic(auto)]

pub use arbitration::{Arbiter, Plan};
pub use chooser::Chooser;
pub use rotate::Rotate;
pub use script::Script;

mod arbitration;
mod chooser;
mod rotate;
mod script;
