//! The home of lines: their content in memory, the directory entry of each, and what the home answers
//! to the messages of the coherence protocol.
//!
//! No call but `Home::new` takes memory, and none but that can fail.
#![tactic(auto)]

pub use arrayvec::ArrayVec;
pub use burst::Burst;
pub use entry::EntryState;
pub use home::Home;

mod burst;
mod entry;
mod home;
mod home_line;
pub mod laws;
mod opening;
mod rows;
