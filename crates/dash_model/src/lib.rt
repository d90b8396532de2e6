//! The machine as definitions: its state, what can happen in it and what becomes of it then, its
//! runs and their logs, and the laws that every run keeps.
//!
//! The definitions stand in `specs/`. They are functions and relations on maps and lists, with no
//! array, ring or thread in them, and no program of this crate computes them.
#![tactic(auto)]

pub mod laws;
