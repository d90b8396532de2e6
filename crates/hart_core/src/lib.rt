//! A hart: its state, what its next instruction needs from outside, and what becomes of it when it
//! is answered.
//!
//! `Hart::next` says what is needed and changes nothing; `Hart::finish` does the instruction with
//! the answer. Between the two the machine around the hart reads or writes memory, or waits. One that
//! asks often keeps the hart's `Front`, and lets `Hart::advance` do the instruction: so each is fetched
//! and decoded once.
#![tactic(auto)]

pub use dash_base::{End, HartId, HintKind, Need, Topology, Trap};
pub use elf_load::Image;
pub use front::Front;
pub use hart::Hart;
pub use rv32_decode::Hint;

mod access;
mod found;
mod front;
mod hart;
pub mod laws;
mod width;
