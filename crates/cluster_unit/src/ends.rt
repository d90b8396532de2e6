//! The ends of a cluster's lanes.
ghost use Rattle.std.specs.Prelude.{◌≡◌, ℕ, ◌*◌, ◌<◌, ◌≤◌, [], ◌∷◌, ◌++◌, length, slice_index_or, slice_get, false, option_to_list, IfSome, IfNone};
ghost use Rattle.mesh_lanes.specs.View.{OutletView, InletView};
ghost use mathlib.Core.List.{IsPrefix};
ghost use Rattle.cluster_unit.specs.Ends.{class_place, place, knows, Sends};
ghost use Rattle.cluster_unit.specs.Turns.{OthersStay};

use dash_base::ClusterId;
use dash_msg::{Class, Parcel, Sent, class};
use mesh_lanes::{Inlet, Outlet};

/// The place of an end among those of its cluster: by the cluster at the other end, the request lane
/// before the reply lane.
pub fn place(other: ClusterId, class: Class) -> usize
    ensures { result ≡ place other.0 class }
{
    2 * other.0 as usize + class_place(class)
}

/// The place of a class among two.
fn class_place(class: Class) -> usize
    ensures { result ≡ class_place class }
{
    match class {
        Class::Request => 0,
        Class::Reply => 1,
    }
}

/// Sends a message with the stamp of its event, by the lane of its class to its cluster, and moves on
/// what that lane has room for. In a run each message goes to a cluster of the machine; one to another
/// cluster is let go.
pub fn send(outlets: &mut [Outlet], clusters: u32, stamp: u64, sent: Sent)
    requires ends { length outlets.old ≡ 2 * clusters }
    requires spare { (j : ℕ) (x : OutletView) → j < length outlets.old → 1 ≤ (slice_index_or outlets.old j x).spare }
    ensures { Sends clusters stamp (sent ∷ []) outlets.old outlets.new }
{
    let at = place(sent.to, class(&sent.msg));
    if at >= outlets.len() {
        return;
    }
    let outlet = &mut outlets[at];
    outlet.send(Parcel {
        msg: sent.msg,
        stamp,
    });
    outlet.flush();
}

/// Sends these messages, in order.
pub fn send_all(outlets: &mut [Outlet], clusters: u32, stamp: u64, messages: &[Sent])
    requires ends { length outlets.old ≡ 2 * clusters }
    requires spare { (j : ℕ) (x : OutletView) → j < length outlets.old → length messages.now ≤ (slice_index_or outlets.old j x).spare }
    ensures { Sends clusters stamp messages.now outlets.old outlets.new }
{
    for sent in messages {
        send(outlets, clusters, stamp, *sent);
    }
}

/// Sends a message, if there is one.
pub fn send_one(outlets: &mut [Outlet], clusters: u32, stamp: u64, sent: Option<Sent>)
    requires ends { length outlets.old ≡ 2 * clusters }
    requires spare { (j : ℕ) (x : OutletView) → j < length outlets.old → 1 ≤ (slice_index_or outlets.old j x).spare }
    ensures { Sends clusters stamp (option_to_list sent) outlets.old outlets.new }
{
    if let Some(sent) = sent {
        send(outlets, clusters, stamp, sent);
    }
}

/// Takes the next parcel of one of these ends. `None` where it shows none.
pub fn take_at(inlets: &mut [Inlet], at: usize) -> Option<Parcel>
    requires { at < length inlets.old }
    ensures others { OthersStay at inlets.old inlets.new }
    ensures some { IfSome result (λ q. (x : InletView) → (slice_index_or inlets.new at x).received ≡ (slice_index_or inlets.old at x).received ++ q ∷ []) }
    ensures next { IfSome result (λ q. (x : InletView) → IsPrefix (slice_index_or inlets.old at x).known (q ∷ (slice_index_or inlets.new at x).known)) }
    ensures none { IfNone result (knows (slice_get inlets.new at) ≡ false) }
    ensures before { IfNone result (knows (slice_get inlets.old at) ≡ false) }
    ensures same { IfNone result ((x : InletView) → (slice_index_or inlets.new at x).received ≡ (slice_index_or inlets.old at x).received) }
{
    inlets[at].take()
}
