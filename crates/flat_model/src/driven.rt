//! Runs in which it is said which hart is next.
ghost use Rattle.std.specs.Prelude.{◌≡◌, ◌<◌, ℕ, List, [], ◌∷◌, ◌++◌, map, All, IfOk, OnOk};
ghost use Rattle.dash_base.specs.Places.{hart_count};
ghost use Rattle.flat_model.specs.Step.{console_after};
ghost use Rattle.flat_model.specs.Represents.{IsSized};
ghost use Rattle.flat_model.specs.FlatEnd.{access_of, IsFlatEnd, IsReached};

use crate::machine::FlatMachine;
use dash_base::{OutOfMemory, Topology};
use dash_event::{Access, StepRecord};
use elf_load::Image;
use hart_core::{Hart, HartId};
use std::alloc::Global;

/// What a run leaves.
#[derive(Drop)]
pub struct FlatEnd {
    /// The accesses in the order in which they were made.
    pub accesses: Vec<Access>,
    pub console: Vec<u8>,
    /// The harts in the order of their numbers.
    pub harts: Vec<Hart>,
}

/// Each listed hart in order does its next instruction, or nothing where it rests or asks for a lock
/// word that is not 0. An SC succeeds wherever its hart has reserved the word.
pub fn flat_run(
    alloc: Global,
    image: &Image,
    topology: &Topology,
    order: &[HartId],
) -> Result<FlatEnd, OutOfMemory>
    requires { All (λ h. h.0 < hart_count topology.now) order.now }
    ensures { IfOk result (λ e. IsFlatEnd image.now topology.now (map (λ h. h.0) order.now)
        e.accesses.items e.console.items e.harts.items) }
{
    let mut machine = FlatMachine::new(alloc, image, topology)?;
    let mut accesses = Vec::new(alloc);
    let mut console = Vec::new(alloc);
    'turns: for hart in order {
        take_turn(
            &mut machine,
            &mut accesses,
            &mut console,
            image,
            topology,
            *hart,
        )?;
    }
    Ok(FlatEnd {
        accesses,
        console,
        harts: machine.into_harts(),
    })
}

/// Lets a hart do its next instruction, if it can, and keeps what is seen of it.
fn take_turn(
    machine: &mut FlatMachine,
    accesses: &mut Vec<Access>,
    console: &mut Vec<u8>,
    image: &Image,
    topology: &Topology,
    hart: HartId,
) -> Result<(), OutOfMemory>
    requires in_range { hart.0 < hart_count topology.now }
    requires sized { IsSized topology.now machine.old }
    ensures reached { OnOk result ((order : List ℕ)
        → IsReached image.now topology.now order machine.old accesses.old.items console.old.items
        → IsReached image.now topology.now (order ++ hart.0 ∷ []) machine.new accesses.new.items console.new.items) }
    ensures sized { IsSized topology.now machine.new }
{
    match machine.step(image, topology, hart) {
        None => {}
        Some(done) => keep(accesses, console, &done.record)?,
    }
    Ok(())
}

/// Keeps the access of a step, or its byte.
fn keep(
    accesses: &mut Vec<Access>,
    console: &mut Vec<u8>,
    did: &StepRecord,
) -> Result<(), OutOfMemory>
    ensures accesses { OnOk result (accesses.new.items ≡ accesses.old.items ++ access_of did.now) }
    ensures console { OnOk result (console.new.items ≡ console_after did.now console.old.items) }
{
    match did {
        StepRecord::Access { access } => accesses.push(*access)?,
        StepRecord::Byte { byte, .. } => console.push(*byte)?,
        _ => {}
    }
    Ok(())
}
