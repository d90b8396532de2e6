//! The assembler: a program from its source.
//!
//! It reads each line on its own, finds the addresses of the labels, and puts the bytes of the lines into
//! segments. It knows nothing of what a machine makes of them.
#![tactic(auto)]

pub use assembler::assemble;
pub use lines::read_line;
pub use refusal::{AsmCause, AsmRefusal};
pub use register::Register;
pub use statement::Statement;

mod assembler;
mod assembly;
mod atomics;
mod causes;
mod emission;
mod fields;
mod here;
mod immediates;
mod jumps;
mod labels;
pub mod laws;
mod lines;
mod refusal;
mod register;
mod rows;
mod said;
mod statement;
