//! Reads a topology: a TOML document that gives the sizes of a machine by name.
//!
//! [`read`] gives the topology, or the first refusal that applies. The bounds, the defaults and the
//! names of the keys are those of `dash_base`; this crate knows which value a document gives a key.
#![tactic(auto)]

pub use dash_base::{Key, KeyName, TopoRefusal, Topology};
pub use reader::read;

pub mod laws;
mod members;
mod reader;
