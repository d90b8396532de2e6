//! One event for one hart.
ghost use Rattle.std.specs.Prelude.{◌≡◌, ◌<◌};
ghost use Rattle.cluster_unit.specs.Picking.{steps_after, ahead_after};
ghost use Rattle.cluster_unit.specs.Serial.{FirstSerial, Stepped};

use crate::first_serial::first_serial;
use crate::turn::Turn;
use crate::unit::{Unit, count};
use crate::unit_core::Core;
use unit_rows::Choice;

impl Core {
    /// Does one event for a hart alone. Where a store of it waits, the first that is enabled of these:
    /// commits the oldest store, gets its line from the cluster, gives up a line in the way of that
    /// line, asks for it. Where none waits: does the next instruction, gets its line from the cluster,
    /// gives up a line in its way, asks for it. `Idle` where none is enabled.
    pub fn serial_step(&mut self, hart: u32) -> Turn
        requires reserved { 0 < self.old.reserved }
        requires hart { hart < self.old.config.top.harts }
        ensures { Stepped hart result self.old self.new }
    {
        let found = self.next_serial(hart);
        self.has_run();
        let Some(choice) = found else {
            self.spend();
            return Turn::Idle;
        };
        self.perform(choice)
    }

    /// The first choice that serves a hart. `None` where there is none.
    fn next_serial(&self, hart: u32) -> Option<Choice>
        requires { hart < self.now.config.top.harts }
        ensures { FirstSerial self.now hart result }
    {
        first_serial(&self.site, &self.parts, hart)
    }
}

impl Unit {
    /// Does one event for a hart alone, as its core does, and counts it.
    pub fn serial_step(&mut self, hart: u32) -> Turn
        requires reserved { 0 < self.old.core.reserved }
        requires hart { hart < self.old.core.config.top.harts }
        ensures stepped { Stepped hart result self.old.core self.new.core }
        ensures steps { self.new.steps ≡ steps_after result self.old.steps }
        ensures ahead { self.new.ahead ≡ ahead_after result self.old.core.config.top.harts self.old.turns self.new.steps self.old.ahead }
        ensures turns { self.new.turns ≡ self.old.turns }
        ensures chooser { (self.new.chooser.boxed ≡ self.old.chooser.boxed) × (self.new.chooser.rotate ≡ self.old.chooser.rotate) }
    {
        let harts = self.core.harts();
        let turn = self.core.serial_step(hart);
        let (steps, ahead) = count(turn, harts, self.turns, self.steps, self.ahead);
        self.steps = steps;
        self.ahead = ahead;
        turn
    }
}
