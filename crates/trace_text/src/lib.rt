//! The text of logs: what happened in a run of the machine, an event a line.
//!
//! A log has one text, and a text is that of one log at most. This crate knows how each event is spelled,
//! and nothing of how it came about.
#![tactic(auto)]

pub use accesses::push_access;
pub use ends::cause_name;
pub use log::write_log;
pub use reader::read_log;
pub use refusal::TextRefusal;

mod accesses;
mod ends;
mod kinds;
pub mod laws;
mod log;
mod messages;
mod read_accesses;
mod read_kinds;
mod read_line;
mod read_messages;
mod reader;
mod refusal;
mod values;
mod words;
