//! The choices to take a message.
ghost use Rattle.std.specs.Prelude.{◌≡◌, ◌≢◌, ℕ, ◌+◌, ◌*◌, ◌<◌, ◌≤◌, ◌++◌, length, vec_capacity, slice_get};
ghost use Rattle.cluster_unit.specs.Ends.{Looked};
ghost use Rattle.cluster_unit.specs.Takes.{take_if, takes_from, takes_of};
ghost use Rattle.cluster_unit.specs.Ends.{place, knows};

use crate::ends::place;
use dash_base::ClusterId;
use dash_msg::Class;
use mesh_lanes::Inlet;
use unit_rows::Choice;

/// Adds the choices to take a message, in their order: by source, a request before a reply, where the
/// end shows one in this call.
pub fn list_takes(inlets: &mut [Inlet], clusters: u32, choices: &mut Vec<Choice>)
    requires ends { length inlets.old ≡ 2 * clusters }
    requires room { length choices.old.items + 2 * clusters ≤ vec_capacity choices.old }
    ensures looked { Looked inlets.old inlets.new }
    ensures takes { choices.new.items ≡ choices.old.items ++ takes_of inlets.new clusters }
    ensures few { length choices.new.items ≤ length choices.old.items + 2 * clusters }
    ensures room { vec_capacity choices.new ≡ vec_capacity choices.old }
{
    for from in 0..clusters {
        list_from(inlets, from, choices);
    }
}

/// Adds the choices to take a message from a cluster.
fn list_from(inlets: &mut [Inlet], from: u32, choices: &mut Vec<Choice>)
    requires from { 2 * from + 1 < length inlets.old }
    requires room { length choices.old.items + 2 ≤ vec_capacity choices.old }
    ensures looked { Looked inlets.old inlets.new }
    ensures others { (j : ℕ) → j < 2 * from → slice_get inlets.new j ≡ slice_get inlets.old j }
    ensures takes { choices.new.items ≡ choices.old.items ++ takes_from inlets.new from }
    ensures room { vec_capacity choices.new ≡ vec_capacity choices.old }
{
    list_one(inlets, from, Class::Request, choices);
    list_one(inlets, from, Class::Reply, choices);
}

/// Adds the choice to take a message of a class from a cluster, where the end shows one.
fn list_one(inlets: &mut [Inlet], from: u32, class: Class, choices: &mut Vec<Choice>)
    requires from { place from class < length inlets.old }
    requires room { length choices.old.items < vec_capacity choices.old }
    ensures looked { Looked inlets.old inlets.new }
    ensures others { (j : ℕ) → j ≢ place from class → slice_get inlets.new j ≡ slice_get inlets.old j }
    ensures takes { choices.new.items ≡ choices.old.items ++ take_if (knows (slice_get inlets.new (place from class))) from class }
    ensures room { vec_capacity choices.new ≡ vec_capacity choices.old }
{
    let from = ClusterId(from);
    if look(inlets, place(from, class)) {
        choices.push_reserved(Choice::Take(from, class));
    }
}

/// Whether an end shows a message.
pub fn look(inlets: &mut [Inlet], at: usize) -> bool
    requires { at < length inlets.old }
    ensures looked { Looked inlets.old inlets.new }
    ensures others { (j : ℕ) → j ≢ at → slice_get inlets.new j ≡ slice_get inlets.old j }
    ensures shows { result ≡ knows (slice_get inlets.new at) }
{
    inlets[at].peek().is_some()
}
