//! The words of an assembler's line: names, numbers, registers, mnemonics, and how a line is cut into them.
//!
//! Each reader answers what a word spells, and takes nothing from the lines around it.
#![tactic(auto)]

pub use cuts::{before_mark, behind_mark};
pub use mnemonic::Mnemonic;
pub use mnemonics::{has_immediate, read_mnemonic};
pub use names::{is_keyword, is_name, is_plain};
pub use numbers::number;
pub use operands::{Operands, Place, keyword, listed, read_place, statement};
pub use tables::{fence_set, register};
pub use word::Word;

mod cuts;
pub mod laws;
mod mnemonic;
mod mnemonics;
mod names;
mod numbers;
mod operands;
mod tables;
mod word;
