//! The messages of the coherence protocol and of the lock words.
//!
//! A message knows nothing of how it travels, and nothing of the state of who sends or takes it.
#![tactic(auto)]

pub use classes::Class;
pub use classify::class;
pub use msg::Msg;
pub use parcel::{Parcel, Sent};

mod classes;
mod classify;
mod msg;
mod parcel;
