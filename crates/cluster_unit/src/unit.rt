//! A unit: a cluster that runs, and who chooses for it.
ghost use Rattle.std.specs.Prelude.{◌≡◌, ℕ, ◌*◌, ◌<◌, ◌≤◌, [], length, slice_index_or, vec_capacity, option_map, IfOk};
ghost use Rattle.arbiter.specs.Picks.{Follows};
ghost use Rattle.mesh_lanes.specs.View.{OutletView, InletView};
ghost use Rattle.unit_rows.specs.Shown.{config};
ghost use Rattle.cluster_unit.specs.Choosing.{Performed, Rests};
ghost use Rattle.cluster_unit.specs.declared.turn.Turn.TheVariants.{Idle};
ghost use Rattle.cluster_unit.specs.Picking.{Turned, counted, steps_after, ahead_after};

use crate::list::MOST_CHOICES;
use crate::turn::Turn;
use crate::unit_core::Core;
use arbiter::{Arbiter, Chooser};
use dash_base::OutOfMemory;
use dash_event::{Event, Logged};
use mesh_lanes::{Inlet, Outlet};
use std::alloc::Global;
use unit_rows::{Choice, Site};

/// A cluster that runs: its core, who chooses what it does next, and how often it did. `turns` counts
/// the calls of `turn`, and `steps` those of `perform` and `serial_step` that did something; `ahead` is
/// the most by which `steps` passed five for each hart and 256 turns.
#[derive(Drop)]
pub struct Unit {
    pub core: Core,
    pub chooser: Chooser,
    pub choices: Vec<Choice>,
    pub turns: u64,
    pub steps: u64,
    pub ahead: u64,
    pub ghost room: { 2048 ≤ vec_capacity choices },
}

impl Unit {
    /// The unit of a cluster at the start of a run, with the ends of its lanes, through which nothing
    /// went yet. It chooses by this box, or in rotation where there is none. It takes all the memory
    /// that it needs, but for its log and its lanes.
    pub fn new(
        alloc: Global,
        site: Site,
        outlets: Vec<Outlet>,
        inlets: Vec<Inlet>,
        arbiter: Option<Box<dyn Arbiter + Send>>,
    ) -> Result<Unit, OutOfMemory>
        requires outlets { length outlets.items ≡ 2 * site.topology.clusters }
        requires inlets { length inlets.items ≡ 2 * site.topology.clusters }
        requires unsent { (j : ℕ) (x : OutletView) → j < length outlets.items → (slice_index_or outlets.items j x).sent ≡ [] }
        requires untaken { (j : ℕ) (x : InletView) → j < length inlets.items → (slice_index_or inlets.items j x).received ≡ [] }
        ensures core { IfOk result (λ unit. unit.core ≡ record { config = config site; cluster = site.cluster.0; log = []; outlets = outlets.items; inlets = inlets.items; reserved = 0; weight = unit.core.weight }) }
        ensures chooser { IfOk result (λ unit. (unit.chooser.boxed ≡ arbiter) × (unit.chooser.rotate ≡ 0)) }
        ensures counts { IfOk result (λ unit. (unit.turns ≡ 0) × (unit.steps ≡ 0) × (unit.ahead ≡ 0)) }
    {
        let choices = Vec::with_capacity(alloc, MOST_CHOICES)?;
        let core = Core::new(alloc, site, outlets, inlets)?;
        Ok(Unit {
            core,
            chooser: Chooser::new(arbiter),
            choices,
            turns: 0,
            steps: 0,
            ahead: 0,
        })
    }

    /// Does one of the choices that are enabled, as the arbiter picks it. A choice to take a message is
    /// one where its lane showed it in this call. `Idle` where there is none: then no choice is enabled but
    /// to take a message.
    pub fn turn(&mut self) -> Turn
        requires { 0 < self.old.core.reserved }
        ensures turned { Turned (option_map (λ b. plan (b.vtable, b.value)) self.old.chooser.boxed) self.old.chooser.rotate self.new.choices.items result self.old.core self.new.core }
        ensures rests { result ≡ Idle → Rests self.new.core }
        ensures turns { self.new.turns ≡ counted self.old.turns }
        ensures others { (self.new.steps ≡ self.old.steps) × (self.new.ahead ≡ self.old.ahead) }
    {
        self.turn_after(Turn::Did)
    }

    /// The same after a turn that did this, where nothing but turns came since: where it did nothing, only
    /// the lanes are looked at, since what is not enabled stays so until a message comes.
    pub fn turn_after(&mut self, last: Turn) -> Turn
        requires reserved { 0 < self.old.core.reserved }
        requires rests { last ≡ Idle → Rests self.old.core }
        ensures turned { Turned (option_map (λ b. plan (b.vtable, b.value)) self.old.chooser.boxed) self.old.chooser.rotate self.new.choices.items result self.old.core self.new.core }
        ensures rests { result ≡ Idle → Rests self.new.core }
        ensures turns { self.new.turns ≡ counted self.old.turns }
        ensures others { (self.new.steps ≡ self.old.steps) × (self.new.ahead ≡ self.old.ahead) }
    {
        self.turns = self.turns.saturating_add(1);
        self.core.list_after(last, &mut self.choices);
        self.core.has_run();
        if self.choices.is_empty() {
            self.core.spend();
            return Turn::Idle;
        }
        let number = self.chooser.choose(self.choices.len() as u32);
        let choice = self.choices[number as usize];
        self.core.perform(choice)
    }

    /// Does a choice. `Idle` where it is not enabled, as of a hart, slot, lock word or cluster that is
    /// out of range; and of a choice to take a message, where the lane shows none in this call.
    pub fn perform(&mut self, choice: Choice) -> Turn
        requires { 0 < self.old.core.reserved }
        ensures performed { Performed choice result self.old.core self.new.core }
        ensures steps { self.new.steps ≡ steps_after result self.old.steps }
        ensures ahead { self.new.ahead ≡ ahead_after result self.old.core.config.top.harts self.old.turns self.new.steps self.old.ahead }
        ensures turns { self.new.turns ≡ self.old.turns }
        ensures chooser { (self.new.chooser.boxed ≡ self.old.chooser.boxed) × (self.new.chooser.rotate ≡ self.old.chooser.rotate) }
    {
        let turn = self.core.perform(choice);
        let harts = self.core.harts();
        let (steps, ahead) = count(turn, harts, self.turns, self.steps, self.ahead);
        self.steps = steps;
        self.ahead = ahead;
        turn
    }
}

impl Logged for Unit {
    ghost log = { λ u. u.core.log };

    fn events(&self) -> &[Event] {
        self.core.log()
    }
}

/// The steps after a call, and by how much they were ahead at most.
pub fn count(turn: Turn, harts: u32, turns: u64, steps: u64, ahead: u64) -> (u64, u64)
    requires { harts ≤ 4 }
    ensures steps { result.0 ≡ steps_after turn steps }
    ensures ahead { result.1 ≡ ahead_after turn harts turns result.0 ahead }
{
    match turn {
        Turn::Idle => (steps, ahead),
        Turn::Did => {
            let steps = steps.saturating_add(1);
            let due = 5 * u64::from(harts) * (turns / 256);
            (steps, ahead.max(steps.saturating_sub(due)))
        }
    }
}
