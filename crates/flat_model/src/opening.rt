//! The parts of a machine in which a run begins.
ghost use Rattle.std.specs.Prelude.{◌≡◌, ℕ, ◌+◌, ◌*◌, ◌<◌, IfOk, map, length, slice_index};
ghost use Rattle.std.specs.List.{range_with_len};
ghost use Rattle.elf_load.specs.Image.{opening_word};
ghost use Rattle.hart_core.specs.Opening.{opening_hart};
ghost use Rattle.dash_base.specs.Places.{hart_count};

use dash_base::{OutOfMemory, Topology};
use elf_load::{Image, MemoryMap};
use hart_core::{Hart, HartId};
use std::alloc::Global;

/// All harts at their start, in the order of their numbers.
pub fn opening_harts(
    alloc: Global,
    image: &Image,
    topology: &Topology,
) -> Result<Vec<Hart>, OutOfMemory>
    ensures { IfOk result (λ harts. harts.items
        ≡ map (λ h. opening_hart image.now topology.now h) (range_with_len 0 (hart_count topology.now))) }
{
    let mut harts = Vec::new(alloc);
    'numbers: for number in 0..topology.hart_count() {
        harts.push(Hart::new(image, topology, HartId(number)))?;
    }
    Ok(harts)
}

/// No reservation of any hart.
pub fn opening_reservations(
    alloc: Global,
    topology: &Topology,
) -> Result<Vec<Option<u32>>, OutOfMemory>
    ensures { IfOk result (λ reservations. reservations.items
        ≡ map (λ h. None) (range_with_len 0 (hart_count topology.now))) }
{
    let mut reservations = Vec::new(alloc);
    'numbers: for _number in 0..topology.hart_count() {
        reservations.push(None)?;
    }
    Ok(reservations)
}

/// The words of memory, which is the image.
pub fn opening_memory(
    alloc: Global,
    image: &Image,
    topology: &Topology,
) -> Result<Vec<u32>, OutOfMemory>
    ensures whole { IfOk result (λ words. 4 * length words.items ≡ topology.now.memory) }
    ensures each { IfOk result (λ words. (i : ℕ) → i < length words.items
        → slice_index words.items i ≡ opening_word image.now (topology.now.base + 4 * i)) }
{
    let map = MemoryMap {
        base: topology.base,
        size: topology.memory,
    };
    Ok(image.opening_words(alloc, map)?)
}
