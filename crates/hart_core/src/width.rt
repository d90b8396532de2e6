//! How many bytes an access means.
ghost use Rattle.std.specs.Prelude.{◌≡◌, ◌<◌, ◌≤◌};
ghost use Rattle.hart_core.specs.Access.{size_of, load_width, store_width};

use dash_base::{LoadOp, StoreOp};

#[derive(Clone, Copy, Debug, PartialEq, Eq)]
pub enum Width {
    Byte,
    Half,
    Word,
}

impl Width {
    /// How many bytes: 1, 2 or 4.
    pub fn size(self) -> u32
        ensures value { result ≡ size_of self }
        ensures some { 0 < result }
        ensures few { result ≤ 4 }
    {
        match self {
            Width::Byte => 1,
            Width::Half => 2,
            Width::Word => 4,
        }
    }

    pub fn of_load(op: LoadOp) -> Width
        ensures { result ≡ load_width op }
    {
        match op {
            LoadOp::Lb | LoadOp::Lbu => Width::Byte,
            LoadOp::Lh | LoadOp::Lhu => Width::Half,
            LoadOp::Lw => Width::Word,
        }
    }

    pub fn of_store(op: StoreOp) -> Width
        ensures { result ≡ store_width op }
    {
        match op {
            StoreOp::Sb => Width::Byte,
            StoreOp::Sh => Width::Half,
            StoreOp::Sw => Width::Word,
        }
    }
}
