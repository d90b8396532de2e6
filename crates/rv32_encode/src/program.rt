//! A program that is to be written to an executable file.
ghost use Rattle.elf_load.specs.Image.{ImageView};

use dash_base::Segment;
use std::marker::Model;

/// The address at which a run begins, and the segments in the order of their program headers. Contracts
/// see it as the image that it is to be: a record of the two.
#[derive(Drop)]
pub struct Program {
    pub entry: u32,
    pub segments: Vec<Segment>,
}

impl Model for Program {
    ghost use Rattle.elf_load.specs.Image.{ImageView};

    ghost Value = { ImageView };

    ghost view = { λ p. record { entry = p.entry; segments = p.segments.items } };
}
