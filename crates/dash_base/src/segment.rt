//! A loadable segment of an image.
ghost use Rattle.std.specs.Prelude.{◌≡◌, IfOk};

use crate::memory::OutOfMemory;
use std::alloc::Global;
use std::marker::Model;

/// A segment: `memsz` bytes from the address `vaddr`, of which the first are `bytes` and the others
/// are 0. Contracts see it as a record with the bytes as a list, never longer than `memsz`.
#[derive(Drop)]
pub struct Segment {
    pub vaddr: u32,
    pub memsz: u32,
    /// The flags of the program header: 1 execute, 2 write, 4 read.
    pub flags: u32,
    pub bytes: Vec<u8>,
}

impl Model for Segment {
    ghost use Rattle.std.specs.Prelude.{vec_len, ◌≤◌};
    ghost use Rattle.dash_base.specs.Segment.{SegmentView};

    ghost Value = { SegmentView };

    ghost view = { λ s. record { vaddr = s.vaddr; memsz = s.memsz; flags = s.flags; bytes = s.bytes.items } };

    ghost invariant = { λ s. vec_len s.bytes ≤ s.memsz };
}

impl Segment {
    /// The bit of `flags` for a segment that may be executed.
    pub const EXECUTE: u32 = 1;
    /// The bit of `flags` for a segment that may be written.
    pub const WRITE: u32 = 2;

    /// The same segment once more.
    pub fn copy(&self, alloc: Global) -> Result<Segment, OutOfMemory>
        ensures { IfOk result (λ segment. segment ≡ self.now) }
    {
        Ok(Segment {
            vaddr: self.vaddr,
            memsz: self.memsz,
            flags: self.flags,
            bytes: Vec::from_slice(alloc, &self.bytes)?,
        })
    }
}
