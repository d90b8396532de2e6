//! The lanes between clusters.
ghost use Rattle.std.specs.Prelude.{◌≡◌, ℕ, ◌*◌, ◌<◌, length, slice_index_or, IfOk, OnOk};
ghost use Rattle.cluster_unit.specs.Fresh.{AreUnsent, AreUntaken, AddsLane, AddsSource, AreLanes};

use dash_base::OutOfMemory;
use mesh_lanes::{Inlet, Outlet, lane};
use std::alloc::Global;

/// The lanes between clusters: for each cluster its ends that send, and its ends that receive. A
/// cluster's ends stand by the cluster at the other end, the request lane before the reply lane.
#[derive(Drop)]
pub struct Lanes {
    pub outlets: Vec<Vec<Outlet>>,
    pub inlets: Vec<Vec<Inlet>>,
}

impl Lanes {
    /// The lanes from each of so many clusters to each.
    pub fn new(alloc: Global, clusters: u32) -> Result<Lanes, OutOfMemory>
        ensures { IfOk result (λ lanes. AreLanes (λ v. v.items) (λ v. v.items) clusters clusters lanes.outlets.items lanes.inlets.items) }
    {
        let mut lanes = Lanes {
            outlets: Vec::new(alloc),
            inlets: no_inlets(alloc, clusters)?,
        };
        for source in 0..clusters {
            let outlets = add_source(alloc, source, &mut lanes.inlets)?;
            lanes.outlets.push(outlets)?;
        }
        Ok(lanes)
    }
}

/// For each of so many clusters, no ends that receive.
fn no_inlets(alloc: Global, clusters: u32) -> Result<Vec<Vec<Inlet>>, OutOfMemory>
    ensures count { IfOk result (λ inlets. length inlets.items ≡ clusters) }
    ensures none { IfOk result (λ inlets. (c : ℕ) (d : _) → c < clusters → AreUntaken 0 (slice_index_or inlets.items c d).items) }
{
    let mut inlets = Vec::new(alloc);
    for _cluster in 0..clusters {
        inlets.push(Vec::new(alloc))?;
    }
    Ok(inlets)
}

/// Adds the lanes from one cluster more to each cluster, whose ends that receive stand in a row each.
/// The answer is the ends that send.
fn add_source(
    alloc: Global,
    source: u32,
    inlets: &mut [Vec<Inlet>],
) -> Result<Vec<Outlet>, OutOfMemory>
    requires { (c : ℕ) (d : _) → c < length inlets.old → AreUntaken (2 * source) (slice_index_or inlets.old c d).items }
    ensures outlets { IfOk result (λ outlets. AreUnsent (2 * length inlets.old) outlets.items) }
    ensures inlets { IfOk result (λ outlets. (c : ℕ) (d : _) → c < length inlets.old → AddsSource source c outlets.items (slice_index_or inlets.old c d).items (slice_index_or inlets.new c d).items) }
{
    let mut outlets = Vec::new(alloc);
    for row in inlets {
        add_lane(alloc, &mut outlets, row)?;
        add_lane(alloc, &mut outlets, row)?;
    }
    Ok(outlets)
}

/// Adds the two ends of a new lane.
fn add_lane(
    alloc: Global,
    outlets: &mut Vec<Outlet>,
    inlets: &mut Vec<Inlet>,
) -> Result<(), OutOfMemory>
    ensures { OnOk result (AddsLane outlets.old.items outlets.new.items inlets.old.items inlets.new.items) }
{
    let (outlet, inlet) = lane(alloc)?;
    outlets.push(outlet)?;
    inlets.push(inlet)?;
    Ok(())
}
