//! The lanes between the units of a machine, where no thread works on them.
ghost use Rattle.std.specs.Prelude.{◌≡◌, ℕ, ◌<◌, ◌≤◌, length, slice_index_or};
ghost use Rattle.round_run.specs.Units.{seen, OnlyMet, Each, IsMesh, IsMet, HaveMet, AllHaveMet};

use cluster_unit::{Unit, meet_units};
use dash_base::Topology;
use dash_msg::Class;

/// Lets all units meet: the two ends of each lane look at each other, and what waits is moved on.
pub fn meet_all(topology: &Topology, units: &mut [Unit])
    requires mesh { IsMesh (λ u. seen u.core u.turns u.steps u.ahead) topology.now units.old }
    ensures met { Each (λ u. seen u.core u.turns u.steps u.ahead) OnlyMet units.old units.new }
    ensures shown { AllHaveMet (λ u. seen u.core u.turns u.steps u.ahead) units.new }
{
    for source in 0..units.len() {
        meet_row(topology, units, source);
    }
}

/// Lets a unit that sends meet all that receive.
fn meet_row(topology: &Topology, units: &mut [Unit], source: usize)
    requires source { source < length units.old }
    requires mesh { IsMesh (λ u. seen u.core u.turns u.steps u.ahead) topology.now units.old }
    ensures met { Each (λ u. seen u.core u.turns u.steps u.ahead) OnlyMet units.old units.new }
    ensures shown { (b : ℕ) → b < length units.new → HaveMet (λ u. seen u.core u.turns u.steps u.ahead) units.new source b }
{
    for target in 0..units.len() {
        meet_pair(topology, units, source, target);
    }
}

/// Lets a unit that sends meet one that receives, by the lanes of both classes.
fn meet_pair(topology: &Topology, units: &mut [Unit], source: usize, target: usize)
    requires source { source < length units.old }
    requires target { target < length units.old }
    requires mesh { IsMesh (λ u. seen u.core u.turns u.steps u.ahead) topology.now units.old }
    ensures met { Each (λ u. seen u.core u.turns u.steps u.ahead) OnlyMet units.old units.new }
    ensures shown { HaveMet (λ u. seen u.core u.turns u.steps u.ahead) units.new source target }
{
    meet_lane(topology, units, source, target, Class::Request);
    meet_lane(topology, units, source, target, Class::Reply);
}

/// Lets a unit that sends meet one that receives, by the lane of one class. The answer is how many messages
/// it has.
fn meet_lane(
    topology: &Topology,
    units: &mut [Unit],
    source: usize,
    target: usize,
    class: Class,
) -> u32
    requires source { source < length units.old }
    requires target { target < length units.old }
    requires mesh { IsMesh (λ u. seen u.core u.turns u.steps u.ahead) topology.now units.old }
    ensures met { Each (λ u. seen u.core u.turns u.steps u.ahead) OnlyMet units.old units.new }
    ensures lane { IsMet (λ u. seen u.core u.turns u.steps u.ahead) class result source target units.new }
{
    if source < target {
        meet_up(topology, units, source, target, class)
    } else if target < source {
        meet_down(topology, units, source, target, class)
    } else {
        units[source].meet_self(class)
    }
}

/// The same from a unit to one after it.
fn meet_up(
    topology: &Topology,
    units: &mut [Unit],
    source: usize,
    target: usize,
    class: Class,
) -> u32
    requires order { source < target }
    requires target { target < length units.old }
    requires mesh { IsMesh (λ u. seen u.core u.turns u.steps u.ahead) topology.now units.old }
    ensures met { Each (λ u. seen u.core u.turns u.steps u.ahead) OnlyMet units.old units.new }
    ensures lane { IsMet (λ u. seen u.core u.turns u.steps u.ahead) class result source target units.new }
{
    let (before, after) = units.split_at_mut(target);
    meet_units(&mut before[source], &mut after[0], class)
}

/// The same from a unit to one before it.
fn meet_down(
    topology: &Topology,
    units: &mut [Unit],
    source: usize,
    target: usize,
    class: Class,
) -> u32
    requires order { target < source }
    requires source { source < length units.old }
    requires mesh { IsMesh (λ u. seen u.core u.turns u.steps u.ahead) topology.now units.old }
    ensures met { Each (λ u. seen u.core u.turns u.steps u.ahead) OnlyMet units.old units.new }
    ensures lane { IsMet (λ u. seen u.core u.turns u.steps u.ahead) class result source target units.new }
{
    let (before, after) = units.split_at_mut(source);
    meet_units(&mut after[0], &mut before[target], class)
}
