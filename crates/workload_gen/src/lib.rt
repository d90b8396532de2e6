//! The generated workload: a program by a seed, and what is proved of it for every seed.
//!
//! It runs on [`topology`]. Each hart draws a number in each of its turns and adds a part of it to a counter,
//! under the counter's lock word. [`totals`] says what the counters come to, and [`summary`] prints it.
#![tactic(auto)]

pub use additions::totals;
pub use dash_base::{OutOfMemory, Topology};
pub use elf_load::Image;
pub use machine::topology;
pub use program::{generate, image};
pub use rv32_encode::Program;
pub use summary_text::{summary, summary_of};

mod additions;
mod assembly;
pub mod laws;
mod machine;
mod program;
mod registers;
mod summary_text;
