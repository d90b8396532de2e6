//! What the host gives for a request.

/// What a machine is made of.
#[derive(Drop)]
pub enum Source {
    /// The first three keys of its topology, every other one at its default.
    Numbers {
        clusters: u32,
        harts: u32,
        budget: u32,
    },
    /// The bytes of a topology file.
    Text {
        bytes: Vec<u8>,
    },
}

/// The bytes of an image's file, and what the machine is made of.
#[derive(Drop)]
pub struct Inputs {
    pub image: Vec<u8>,
    pub source: Source,
}
