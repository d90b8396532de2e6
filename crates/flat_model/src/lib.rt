//! The sequential machine: many harts over one memory, one step at a time, and what is said of its
//! runs: which access happens before which, which of them race, and which images are properly
//! labelled.
//!
//! The definitions stand in `specs/`. They are relations on lists of records. `FlatMachine` computes
//! one step of them. `laws` has what follows from them.
#![tactic(auto)]

pub use done::Done;
pub use driven::{FlatEnd, flat_run};
pub use machine::FlatMachine;

mod change;
mod done;
mod driven;
pub mod laws;
mod machine;
mod opening;
mod record;
