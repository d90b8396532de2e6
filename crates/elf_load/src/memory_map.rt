//! The range of memory.
ghost use Rattle.std.specs.Prelude.{◌≡◌, ◌+◌, ◌%◌, ◌^◌, ◌≤◌};

/// The addresses from `base` on that are memory, `size` bytes of them.
#[derive(Clone, Copy, Debug, PartialEq, Eq)]
pub struct MemoryMap {
    pub base: u32,
    pub size: u32,
    pub ghost in_range: { base + size ≤ 2 ^ 32 },
    pub ghost base_aligned: { base % 4 ≡ 0 },
    pub ghost size_aligned: { size % 4 ≡ 0 },
}
