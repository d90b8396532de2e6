//! From the words of a command line to the printed report of a machine's run.
//!
//! [`dash`] is the call that the program makes. Its contract is the theorem: what a run is, what is printed
//! of it, and how a call may end.
#![tactic(auto)]

pub use top::{Ended, dash};

mod access_text;
mod answer;
mod command_line;
mod files;
mod generated;
mod inputs;
pub mod laws;
mod lines;
mod output;
mod report;
mod retired;
mod run;
mod seed;
mod top;
