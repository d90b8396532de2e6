//! What a step changes: its hart, memory, lock words, and reservations.
ghost use Rattle.std.specs.Prelude.{◌≡◌, ◌<◌, ◌+◌, ◌*◌, ◌≤◌, true, Some, length, slice_get, sum_by};
ghost use Rattle.dash_event.specs.declared.step_record.StepRecord.TheVariants as step;
ghost use Rattle.hart_core.specs.HartState.{HartState, can_go_on};
ghost use Rattle.hart_core.specs.Access.{IsInMemory, IsLockWord};
ghost use Rattle.flat_model.specs.Step.{reservation_after};
ghost use Rattle.dash_event.specs.Effects.{is_of_memory};
ghost use Rattle.flat_model.specs.Driven.{is_reserved};
ghost use Rattle.flat_model.specs.Represents.{work_left};
ghost use Rattle.flat_model.specs.Change.{FitsAccess, IsHartAfter, AreReserved, AreWritten, AreLocked, can_succeed};

use dash_base::{AmoOp, Topology, WordAddr, merge};
use dash_event::{Access, Op};
use elf_load::Image;
use hart_core::Hart;

/// Lets the hart at a place do its next instruction with this answer.
pub fn finish(harts: &mut Vec<Hart>, index: usize, image: &Image, topology: &Topology, answer: u32)
    requires in_range { index < length harts.old.items }
    requires goes { (h : HartState) → slice_get harts.old.items index ≡ Some h → can_go_on topology.now h ≡ true }
    ensures after { IsHartAfter image.now topology.now harts.old.items index answer harts.new.items }
    ensures nearer { sum_by (work_left topology.now) harts.new.items < sum_by (work_left topology.now) harts.old.items }
{
    let hart = &mut harts[index];
    hart.finish(image, topology, answer);
}

/// Writes what an access writes to memory.
pub fn write_word(memory: &mut Vec<u32>, topology: &Topology, access: &Access)
    requires whole { 4 * length memory.old.items ≡ topology.now.memory }
    requires fits { FitsAccess topology.now access.now }
    ensures { AreWritten topology.now (step.Access access.now) memory.old.items memory.new.items }
{
    if let Some(value) = access.written {
        if is_of_memory(access.op) {
            let index = memory_index(topology, access.word);
            memory[index] = merge(memory[index], access.mask, value);
        }
    }
}

/// Writes what an access writes to a lock word.
pub fn write_lock(locks: &mut Vec<u32>, topology: &Topology, access: &Access)
    requires whole { length locks.old.items ≡ topology.now.locks }
    requires fits { FitsAccess topology.now access.now }
    ensures { AreLocked topology.now (step.Access access.now) locks.old.items locks.new.items }
{
    if let Some(value) = access.written {
        if !is_of_memory(access.op) {
            let index = lock_index(topology, access.word);
            locks[index] = value;
        }
    }
}

/// Changes the reservations of all harts as an access does.
pub fn reserve(reservations: &mut Vec<Option<u32>>, access: &Access)
    ensures { AreReserved (step.Access access.now) reservations.old.items reservations.new.items }
{
    'harts: for number in 0..reservations.len() {
        reservations[number] = reservation_after(number, access, reservations[number]);
    }
}

/// The reservation of a hart after an access: LR sets its own, an SC removes its own, and a write of
/// memory removes that of its word from every other hart.
fn reservation_after(number: usize, access: &Access, old: Option<u32>) -> Option<u32>
    ensures { result ≡ reservation_after number (step.Access access.now) old }
{
    if number == access.hart.0 as usize {
        match access.op {
            Op::Reserve => Some(access.word.0),
            Op::Cond => None,
            _ => old,
        }
    } else if is_of_memory(access.op) && access.written.is_some() {
        match old {
            Some(word) if word != access.word.0 => old,
            _ => None,
        }
    } else {
        old
    }
}

/// Whether an operation is no SC, or its hart has reserved the word.
pub fn can_succeed(op: AmoOp, reservation: Option<u32>, word: WordAddr) -> bool
    ensures { result ≡ can_succeed op reservation word.0 }
{
    match op {
        AmoOp::Sc => is_reserved(reservation, word),
        _ => true,
    }
}

/// Whether a reservation is of a word.
fn is_reserved(reservation: Option<u32>, word: WordAddr) -> bool
    ensures { result ≡ is_reserved reservation word.0 }
{
    match reservation {
        Some(reserved) => reserved == word.0,
        None => false,
    }
}

/// Whether an operation is one on memory, and not on a lock word.
fn is_of_memory(op: Op) -> bool
    ensures { result ≡ is_of_memory op }
{
    !matches!(op, Op::Ask | Op::Unlock)
}

/// The place of a word of memory.
pub fn memory_index(topology: &Topology, word: WordAddr) -> usize
    requires { IsInMemory topology.now word.0 4 }
    ensures place { topology.now.base + 4 * result ≡ word.0 }
    ensures inside { 4 * (result + 1) ≤ topology.now.memory }
{
    ((word.0 - topology.base) / 4) as usize
}

/// The place of a lock word.
pub fn lock_index(topology: &Topology, word: WordAddr) -> usize
    requires { IsLockWord topology.now word.0 }
    ensures place { topology.now.base + topology.now.memory + 4 * result ≡ word.0 }
    ensures inside { result < topology.now.locks }
{
    ((word.0 - topology.base - topology.memory) / 4) as usize
}
