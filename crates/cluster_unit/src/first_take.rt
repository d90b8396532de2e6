//! The first message that the lanes of a cluster show.
ghost use Rattle.std.specs.Prelude.{◌≡◌, ◌≢◌, ℕ, ◌+◌, ◌*◌, ◌<◌, length, slice_get};
ghost use Rattle.cluster_unit.specs.Ends.{Looked};
ghost use Rattle.cluster_unit.specs.Searching.{FirstClass, FirstTake};

use crate::ends::place;
use crate::takes::look;
use dash_base::ClusterId;
use dash_msg::Class;
use mesh_lanes::Inlet;
use unit_rows::Choice;

/// The first choice to take a message that its end shows in this call: by source, a request before a
/// reply. `None` where no end shows one.
pub fn first_take(inlets: &mut [Inlet], clusters: u32) -> Option<Choice>
    requires { length inlets.old ≡ 2 * clusters }
    ensures looked { Looked inlets.old inlets.new }
    ensures first { FirstTake inlets.new clusters result }
{
    for from in 0..clusters {
        if let Some(class) = first_class(inlets, from) {
            return Some(Choice::Take(ClusterId(from), class));
        }
    }
    None
}

/// The first class of which a message from a cluster is shown.
fn first_class(inlets: &mut [Inlet], from: u32) -> Option<Class>
    requires { 2 * from + 1 < length inlets.old }
    ensures looked { Looked inlets.old inlets.new }
    ensures others { (j : ℕ) → j < 2 * from → slice_get inlets.new j ≡ slice_get inlets.old j }
    ensures first { FirstClass inlets.new from result }
{
    if look(inlets, place(ClusterId(from), Class::Request)) {
        return Some(Class::Request);
    }
    if look(inlets, place(ClusterId(from), Class::Reply)) {
        return Some(Class::Reply);
    }
    None
}
