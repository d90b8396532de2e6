//! What a unit may do next.
ghost use Rattle.std.specs.Prelude.{◌≡◌, ◌≤◌, length, vec_capacity};
ghost use Rattle.cluster_unit.specs.Choosing.{Lists, Rests};
ghost use Rattle.cluster_unit.specs.declared.turn.Turn.TheVariants.{Idle};

use crate::list::list_own;
use crate::takes::list_takes;
use crate::turn::Turn;
use crate::unit_core::Core;
use unit_rows::Choice;

impl Core {
    /// Lists what may be done next, as `list` and `list_arrived` do. After a turn that did nothing only
    /// what arrived since may be done.
    pub fn list_after(&mut self, last: Turn, choices: &mut Vec<Choice>)
        requires room { 2048 ≤ vec_capacity choices.old }
        requires rests { last ≡ Idle → Rests self.old }
        ensures lists { Lists self.old self.new choices.new.items }
        ensures room { vec_capacity choices.new ≡ vec_capacity choices.old }
        ensures few { length choices.new.items ≤ 2048 }
    {
        match last {
            Turn::Did => self.list(choices),
            Turn::Idle => self.list_arrived(choices),
        }
    }

    /// Lists what may be done next, in the order of choices, and takes no memory: each choice that is
    /// enabled; and to take a message, where its lane shows one in this call.
    pub fn list(&mut self, choices: &mut Vec<Choice>)
        requires room { 2048 ≤ vec_capacity choices.old }
        ensures lists { Lists self.old self.new choices.new.items }
        ensures room { vec_capacity choices.new ≡ vec_capacity choices.old }
        ensures few { length choices.new.items ≤ 2048 }
    {
        list_own(&self.site, &self.parts, choices);
        list_takes(&mut self.inlets, self.site.topology.clusters, choices);
    }

    /// The same where no choice is enabled but to take a message: looks at the lanes alone.
    pub fn list_arrived(&mut self, choices: &mut Vec<Choice>)
        requires room { 2048 ≤ vec_capacity choices.old }
        requires rests { Rests self.old }
        ensures lists { Lists self.old self.new choices.new.items }
        ensures room { vec_capacity choices.new ≡ vec_capacity choices.old }
        ensures few { length choices.new.items ≤ 2048 }
    {
        choices.clear();
        list_takes(&mut self.inlets, self.site.topology.clusters, choices);
    }
}
