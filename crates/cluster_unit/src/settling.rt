//! The steps by which a cluster settles.
ghost use Rattle.std.specs.Prelude.{◌≡◌, ◌<◌};
ghost use Rattle.cluster_unit.specs.Ends.{Looked};
ghost use Rattle.cluster_unit.specs.declared.turn.Turn.TheVariants.{Did};
ghost use Rattle.cluster_unit.specs.Settling.{FirstToSettle, Settles};
ghost use Rattle.cluster_unit.specs.Weight.{IsLighter};

use crate::first_settling::first_after;
use crate::first_take::first_take;
use crate::turn::Turn;
use crate::unit::Unit;
use crate::unit_core::Core;
use unit_rows::Choice;

impl Core {
    /// Does the first of the choices by which its cluster settles, in this order: takes a message that
    /// its lane shows in this call, grants a lock word, installs a line that came to a slot, or lets a
    /// hart give up a line that is in the way of one that came for it. `Idle` where there is none. Each
    /// step that is done lowers the weight of what is left to settle.
    pub fn settle_step(&mut self) -> Turn
        requires { 0 < self.old.reserved }
        ensures settles { Settles result self.old self.new }
        ensures lighter { result ≡ Did → IsLighter self.old self.new }
    {
        let found = self.next_settling();
        self.has_run();
        let Some(choice) = found else {
            self.spend();
            return Turn::Idle;
        };
        let turn = self.perform(choice);
        self.has_run();
        turn
    }

    /// The first of the choices by which its cluster settles. `None` where there is none.
    fn next_settling(&mut self) -> Option<Choice>
        ensures same { self.new ≡ record self.old { inlets = self.new.inlets } }
        ensures looked { Looked self.old.inlets self.new.inlets }
        ensures first { FirstToSettle self.new result }
    {
        let shown = first_take(&mut self.inlets, self.site.topology.clusters);
        first_after(&self.site, &self.parts, shown)
    }
}

impl Unit {
    /// Does the first of the choices by which its cluster settles, as its core does, and is lighter
    /// then. It counts nothing.
    pub fn settle_step(&mut self) -> Turn
        requires { 0 < self.old.core.reserved }
        ensures settles { Settles result self.old.core self.new.core }
        ensures lighter { result ≡ Did → IsLighter self.old.core self.new.core }
        ensures counts { (self.new.turns ≡ self.old.turns) × (self.new.steps ≡ self.old.steps) × (self.new.ahead ≡ self.old.ahead) }
        ensures chooser { (self.new.chooser.boxed ≡ self.old.chooser.boxed) × (self.new.chooser.rotate ≡ self.old.chooser.rotate) }
    {
        self.core.settle_step()
    }
}
