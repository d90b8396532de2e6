//! Units whose lanes meet.
ghost use Rattle.std.specs.Prelude.{◌≡◌, ◌<◌, length, slice_index_or};
ghost use Rattle.mesh_lanes.specs.View.{OutletView, InletView};
ghost use Rattle.cluster_unit.specs.Ends.{place};
ghost use Rattle.cluster_unit.specs.Meeting.{Flushed, Learned, EndsMet, Met, AreJoined};

use crate::ends::place;
use crate::unit::Unit;
use crate::unit_core::Core;
use dash_msg::Class;
use mesh_lanes::{Inlet, Outlet, meet_and_flush};

/// Lets the two ends of the lane of a class from one unit to another look at each other, and moves what
/// waits there on. The answer is how many messages the lane has.
pub fn meet_units(from: &mut Unit, to: &mut Unit, class: Class) -> u32
    requires clusters { to.old.core.cluster < from.old.core.config.top.clusters }
    requires source { from.old.core.cluster < to.old.core.config.top.clusters }
    requires joined { AreJoined class from.old.core to.old.core }
    ensures met { Met class result from.new.core to.new.core }
    ensures outlets { Flushed from.old.core.outlets from.new.core.outlets × (from.new.core ≡ record from.old.core { outlets = from.new.core.outlets }) }
    ensures inlets { Learned to.old.core.inlets to.new.core.inlets × (to.new.core ≡ record to.old.core { inlets = to.new.core.inlets }) }
    ensures sender { (from.new.turns ≡ from.old.turns) × (from.new.steps ≡ from.old.steps) × (from.new.ahead ≡ from.old.ahead) }
    ensures receiver { (to.new.turns ≡ to.old.turns) × (to.new.steps ≡ to.old.steps) × (to.new.ahead ≡ to.old.ahead) }
    ensures choosers { (from.new.chooser ≡ from.old.chooser) × (to.new.chooser ≡ to.old.chooser) }
{
    meet_cores(&mut from.core, &mut to.core, class)
}

/// The same of two cores.
fn meet_cores(from: &mut Core, to: &mut Core, class: Class) -> u32
    requires clusters { to.old.cluster < from.old.config.top.clusters }
    requires source { from.old.cluster < to.old.config.top.clusters }
    requires joined { AreJoined class from.old to.old }
    ensures met { Met class result from.new to.new }
    ensures outlets { Flushed from.old.outlets from.new.outlets × (from.new ≡ record from.old { outlets = from.new.outlets }) }
    ensures inlets { Learned to.old.inlets to.new.inlets × (to.new ≡ record to.old { inlets = to.new.inlets }) }
{
    let out = place(to.site.cluster, class);
    let into = place(from.site.cluster, class);
    meet_at(&mut from.outlets, out, &mut to.inlets, into)
}

/// Lets an end among those that send and one among those that receive, of one lane, look at each other.
fn meet_at(outlets: &mut [Outlet], out: usize, inlets: &mut [Inlet], into: usize) -> u32
    requires out { out < length outlets.old }
    requires into { into < length inlets.old }
    requires joined { (x : OutletView) (y : InletView) → (slice_index_or outlets.old out x).lane ≡ (slice_index_or inlets.old into y).lane }
    ensures met { (x : OutletView) (y : InletView) → EndsMet result (slice_index_or outlets.new out x) (slice_index_or inlets.new into y) }
    ensures flushed { Flushed outlets.old outlets.new }
    ensures learned { Learned inlets.old inlets.new }
{
    meet_and_flush(&mut outlets[out], &mut inlets[into])
}

impl Unit {
    /// The same as `meet_units`, of the lane of a class from the cluster to itself.
    pub fn meet_self(&mut self, class: Class) -> u32
        requires joined { AreJoined class self.old.core self.old.core }
        ensures met { Met class result self.new.core self.new.core }
        ensures outlets { Flushed self.old.core.outlets self.new.core.outlets }
        ensures inlets { Learned self.old.core.inlets self.new.core.inlets }
        ensures same { self.new.core ≡ record self.old.core { outlets = self.new.core.outlets; inlets = self.new.core.inlets } }
        ensures counts { (self.new.turns ≡ self.old.turns) × (self.new.steps ≡ self.old.steps) × (self.new.ahead ≡ self.old.ahead) }
        ensures chooser { self.new.chooser ≡ self.old.chooser }
    {
        self.core.meet_self(class)
    }
}

impl Core {
    /// Lets the two ends of the lane of a class from the cluster to itself look at each other.
    fn meet_self(&mut self, class: Class) -> u32
        requires joined { AreJoined class self.old self.old }
        ensures met { Met class result self.new self.new }
        ensures outlets { Flushed self.old.outlets self.new.outlets }
        ensures inlets { Learned self.old.inlets self.new.inlets }
        ensures same { self.new ≡ record self.old { outlets = self.new.outlets; inlets = self.new.inlets } }
    {
        let at = place(self.site.cluster, class);
        meet_at(&mut self.outlets, at, &mut self.inlets, at)
    }
}
