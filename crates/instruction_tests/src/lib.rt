//! Tests of the crates that read, spell, write and carry out instructions, and of images. A crate with tests is proved again with them, so they stand here, above all that they test.
#![tactic(auto)]

#[cfg(test)]
mod arithmetic;
#[cfg(test)]
mod assembling;
#[cfg(test)]
mod decoding;
#[cfg(test)]
mod elf_loading;
#[cfg(test)]
mod elf_writing;
#[cfg(test)]
mod encoding;
#[cfg(test)]
mod flat_runs;
#[cfg(test)]
mod harts;
#[cfg(test)]
mod log_refusals;
#[cfg(test)]
mod logs;
#[cfg(test)]
mod spelling;
#[cfg(test)]
mod topologies;
#[cfg(test)]
mod workloads;
