//! All harts over one memory, of which one at a time does an instruction.

use crate::change::{
    can_succeed, finish, lock_index, memory_index, reserve, write_lock, write_word,
};
use crate::done::Done;
use crate::opening::{opening_harts, opening_memory, opening_reservations};
use crate::record::{answer_of, record_of};
use dash_base::{OutOfMemory, Topology};
use dash_event::{StepRecord, offer};
use elf_load::Image;
use hart_core::{Hart, HartId, Need};
use std::alloc::Global;
use std::marker::Model;

/// The harts, what each has reserved, memory, and the lock words. The console is kept apart.
#[derive(Drop)]
pub struct FlatMachine {
    harts: Vec<Hart>,
    reservations: Vec<Option<u32>>,
    memory: Vec<u32>,
    locks: Vec<u32>,
}

impl Model for FlatMachine {
    ghost use Rattle.flat_model.specs.Represents.{MachineView};

    ghost Value = { MachineView };

    ghost view = { λ m. record {
      harts = m.harts.items;
      reservations = m.reservations.items;
      memory = m.memory.items;
      locks = m.locks.items;
    } };
}

impl FlatMachine {
    ghost use Rattle.std.specs.Prelude.{◌≡◌, ◌<◌, IfOk, IfSome, IfNone};
    ghost use Rattle.dash_base.specs.Places.{hart_count};
    ghost use Rattle.flat_model.specs.State.{FlatState, opening_state};
    ghost use Rattle.flat_model.specs.Run.{IsFlatStopped};
    ghost use Rattle.flat_model.specs.Represents.{IsSized, Represents, IsDone, all_work_left};

    /// The machine in which a run of an image begins.
    pub fn new(
        alloc: Global,
        image: &Image,
        topology: &Topology,
    ) -> Result<FlatMachine, OutOfMemory>
        ensures held { IfOk result (λ m. Represents topology.now m (opening_state image.now topology.now)) }
        ensures sized { IfOk result (λ m. IsSized topology.now m) }
    {
        Ok(FlatMachine {
            harts: opening_harts(alloc, image, topology)?,
            reservations: opening_reservations(alloc, topology)?,
            memory: opening_memory(alloc, image, topology)?,
            locks: vec![in alloc; 0; topology.locks as usize]?,
        })
    }

    /// Does the next instruction of a hart. An SC succeeds wherever its hart has reserved the word.
    /// `None` where the hart ended or spent its budget, or where its next instruction asks for a
    /// lock word that is not 0; then nothing changes.
    pub fn step(&mut self, image: &Image, topology: &Topology, hart: HartId) -> Option<Done>
        requires in_range { hart.0 < hart_count topology.now }
        requires sized { IsSized topology.now self.old }
        ensures idle { IfNone result ((s : FlatState) → Represents topology.now self.old s
            → IsFlatStopped image.now topology.now s hart.0) }
        ensures unchanged { IfNone result (self.new ≡ self.old) }
        ensures done { IfSome result (λ d. (s : FlatState) → Represents topology.now self.old s
            → IsDone image.now topology.now s hart.0 d.need d.pc d.record self.new) }
        ensures same { IfSome result (λ d. d.hart ≡ hart) }
        ensures nearer { IfSome result (λ _. all_work_left topology.now self.new < all_work_left topology.now self.old) }
        ensures sized { IsSized topology.now self.new }
    {
        let done = match self.due(image, topology, hart) {
            None => return None,
            Some(done) => done,
        };
        self.carry_out(image, topology, hart, &done.record);
        Some(done)
    }

    /// Its harts, in the order of their numbers.
    pub fn into_harts(self) -> Vec<Hart>
        ensures { result.items ≡ self.harts }
    {
        self.harts
    }
}

impl FlatMachine {
    ghost use Rattle.std.specs.Prelude.{◌≡◌, ◌<◌, IfSome, IfNone, IsTrue, Some, true, slice_get};
    ghost use Rattle.hart_core.specs.Access.{IsProper};
    ghost use Rattle.hart_core.specs.HartState.{HartState, can_go_on};
    ghost use Rattle.dash_base.specs.Places.{hart_count};
    ghost use Rattle.flat_model.specs.State.{FlatState};
    ghost use Rattle.flat_model.specs.Step.{content};
    ghost use Rattle.flat_model.specs.Run.{IsFlatStopped};
    ghost use Rattle.flat_model.specs.Driven.{succeeds_on};
    ghost use Rattle.flat_model.specs.Represents.{IsSized, Represents, all_work_left};
    ghost use Rattle.flat_model.specs.Change.{FitsRecord, IsCarriedOut, IsDue, is_blocked};

    /// What the next instruction of a hart will do, if it can be done.
    fn due(&self, image: &Image, topology: &Topology, hart: HartId) -> Option<Done>
        requires in_range { hart.0 < hart_count topology.now }
        requires sized { IsSized topology.now self.now }
        ensures idle { IfNone result ((s : FlatState) → Represents topology.now self.now s
            → IsFlatStopped image.now topology.now s hart.0) }
        ensures due { IfSome result (λ d. IsDue image.now topology.now self.now hart.0 d.need d.pc d.record) }
        ensures fits { IfSome result (λ d. FitsRecord topology.now d.record) }
        ensures same { IfSome result (λ d. d.hart ≡ hart) }
    {
        let own = &self.harts[hart.0 as usize];
        let need = own.next(image, topology);
        if let Need::Rest = need {
            return None;
        }
        if self.is_blocked(topology, &need) {
            return None;
        }
        let content = self.content(topology, &need);
        let succeeds = self.succeeds(topology, hart, &need);
        let access = offer(hart, own.retired() + 1, &need, content, succeeds);
        let record = record_of(hart, &need, access);
        Some(Done {
            hart,
            pc: own.pc(),
            need,
            record,
        })
    }

    /// Does the instruction of a hart that this is the record of.
    fn carry_out(&mut self, image: &Image, topology: &Topology, hart: HartId, did: &StepRecord)
        requires in_range { hart.0 < hart_count topology.now }
        requires sized { IsSized topology.now self.old }
        requires goes { (h : HartState) → slice_get self.old.harts hart.0 ≡ Some h → can_go_on topology.now h ≡ true }
        requires fits { FitsRecord topology.now did.now }
        ensures carried_out { IsCarriedOut image.now topology.now hart.0 did.now self.old self.new }
        ensures nearer { all_work_left topology.now self.new < all_work_left topology.now self.old }
    {
        let answer = answer_of(did);
        finish(&mut self.harts, hart.0 as usize, image, topology, answer);
        if let StepRecord::Access { access } = did {
            write_word(&mut self.memory, topology, access);
            write_lock(&mut self.locks, topology, access);
            reserve(&mut self.reservations, access);
        }
    }

    /// Whether a hart needs a lock word that is not 0.
    fn is_blocked(&self, topology: &Topology, need: &Need) -> bool
        requires sized { IsSized topology.now self.now }
        requires proper { IsProper topology.now need.now }
        ensures { (s : FlatState) → Represents topology.now self.now s → result ≡ is_blocked s need.now }
    {
        match need {
            Need::Ask { word, .. } => self.locks[lock_index(topology, *word)] != 0,
            _ => false,
        }
    }

    /// What stands in the word that is read.
    fn content(&self, topology: &Topology, need: &Need) -> u32
        requires sized { IsSized topology.now self.now }
        requires proper { IsProper topology.now need.now }
        ensures { (s : FlatState) → Represents topology.now self.now s → result ≡ content s need.now }
    {
        match need {
            Need::Load { word, .. } => self.memory[memory_index(topology, *word)],
            Need::Rmw { word, .. } => self.memory[memory_index(topology, *word)],
            Need::Unlock { word } => self.locks[lock_index(topology, *word)],
            _ => 0,
        }
    }

    /// Whether an SC succeeds: its hart has reserved the word.
    fn succeeds(&self, topology: &Topology, hart: HartId, need: &Need) -> bool
        requires in_range { hart.0 < hart_count topology.now }
        requires sized { IsSized topology.now self.now }
        ensures { (s : FlatState) → Represents topology.now self.now s → result ≡ succeeds_on s hart.0 need.now }
    {
        match need {
            Need::Rmw { word, op, .. } => {
                can_succeed(*op, self.reservations[hart.0 as usize], *word)
            }
            _ => true,
        }
    }
}
