//! An image: the segments that were loaded.
ghost use Rattle.std.specs.Prelude.{◌≡◌, ◌*◌, ◌↔◌, false, IfOk, vec_len};
ghost use Rattle.elf_load.specs.Image.{ImageView, opening_byte, opening_word, opening_words, fetched, is_writable, HasReadOnlyByte};

use crate::memory_map::MemoryMap;
use crate::{opening, segments};
use dash_base::{OutOfMemory, Segment};
use std::alloc::Global;
use std::marker::Model;

/// A loaded program: the address at which a run begins, and the segments in the order of their
/// headers. Contracts see it as a record of the two.
#[derive(Drop)]
pub struct Image {
    entry: u32,
    segments: Vec<Segment>,
}

impl Model for Image {
    ghost use Rattle.elf_load.specs.Image.{ImageView};

    ghost Value = { ImageView };

    ghost view = { λ i. record { entry = i.entry; segments = i.segments.items } };
}

impl Image {
    /// The image of these segments, in this order, whose run begins at `entry`.
    pub fn new(entry: u32, segments: Vec<Segment>) -> Image
        ensures { result ≡ record { entry = entry; segments = segments.items } }
    {
        Image { entry, segments }
    }

    /// The same image once more.
    pub fn copy(&self, alloc: Global) -> Result<Image, OutOfMemory>
        ensures { IfOk result (λ image. image ≡ self.now) }
    {
        let mut segments = Vec::new(alloc);
        for segment in &self.segments {
            segments.push(segment.copy(alloc)?)?;
        }
        Ok(Image::new(self.entry, segments))
    }

    /// The address at which a run begins.
    pub fn entry(&self) -> u32
        ensures { result ≡ self.now.entry }
    {
        self.entry
    }

    /// The segments, in the order of their headers.
    pub fn segments(&self) -> &[Segment]
        ensures { result.now ≡ self.now.segments }
    {
        &self.segments
    }

    /// The word at `pc`, the lowest byte first. `None` where its four bytes are not all in one
    /// segment that may be executed.
    #[tactic(auto, unfolding(crate::specs::Image::fetched))]
    pub fn fetch(&self, pc: u32) -> Option<u32>
        ensures { result ≡ fetched self.now pc }
    {
        if segments::has_code(&self.segments, pc) {
            Some(segments::word_at(&self.segments, pc))
        } else {
            None
        }
    }

    /// Whether none of the `len` bytes from `address` on is in a segment that may not be written.
    #[tactic(auto, unfolding(crate::specs::Image::is_writable))]
    pub fn writable(&self, address: u32, len: u32) -> bool
        ensures value { result ≡ is_writable self.now address len }
        ensures refused { (result ≡ false) ↔ HasReadOnlyByte self.now address len }
    {
        !segments::has_read_only(&self.segments, address, len)
    }

    /// The byte at `address` of the memory that a run opens with: 0 where no segment has one.
    pub fn byte(&self, address: u32) -> u8
        ensures { result ≡ opening_byte self.now address }
    {
        segments::byte_at(&self.segments, u64::from(address))
    }

    /// The four bytes from `address` on of the memory that a run opens with, the lowest first.
    pub fn opening_word(&self, address: u32) -> u32
        ensures { result ≡ opening_word self.now address }
    {
        segments::word_at(&self.segments, address)
    }

    /// The words of the memory that a run opens with, from its lowest address on.
    pub fn opening_words(&self, alloc: Global, map: MemoryMap) -> Result<Vec<u32>, OutOfMemory>
        ensures words { IfOk result (λ words. words.items ≡ opening_words self.now map) }
        ensures len { IfOk result (λ words. vec_len words * 4 ≡ map.size) }
    {
        opening::words(alloc, &self.segments, map)
    }
}
