//! A machine in rounds: each cluster works on a thread of its own, and then the clusters settle together.
#![tactic(auto)]

pub use finished::{Cause, Finished, RunEnd};
pub use gate::{Gate, OpenGate};
pub use machine::Machine;
pub use rounds::run_rounds;

mod ending;
mod finished;
mod gate;
mod machine;
mod meets;
mod progress;
mod rest;
mod rounds;
mod serial;
mod settle;
mod stamps;
mod work;
