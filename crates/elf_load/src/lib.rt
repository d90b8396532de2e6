//! Reads the executable file of a program for the simulated machine: an ELF file of 32 bits for
//! RISC-V (System V ABI, "ELF Header" and "Program Header").
//!
//! [`load`] gives an image, or the first of fourteen refusals that applies.
#![tactic(auto)]

pub use dash_base::{OutOfMemory, Segment};
pub use image::Image;
pub use loader::load;
pub use memory_map::MemoryMap;
pub use refusal::LoadRefusal;

mod file_checks;
mod header;
mod image;
pub mod laws;
mod loader;
mod memory_map;
mod opening;
mod overlap;
mod refusal;
mod segment_checks;
mod segment_table;
mod segments;
