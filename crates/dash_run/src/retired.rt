//! How far the harts of a machine have come.
ghost use Rattle.std.specs.Prelude.{◌≡◌, ℕ, ◌<◌, IfOk, length, slice_index};
ghost use Rattle.dash_base.specs.Places.{hart_count};
ghost use Rattle.dash_model.specs.Machine.{Machine};
ghost use Rattle.elf_load.specs.Image.{ImageView};
ghost use Rattle.dash_run.specs.Report.{hart_of};
ghost use Rattle.dash_run.specs.Units.{AreOn, AreAt};

use crate::report::hart_of;
use cluster_unit::Unit;
use dash_base::{OutOfMemory, Topology};
use std::alloc::Global;

/// For each hart of a machine how many instructions it retired.
pub fn retired_counts(
    alloc: Global,
    topology: &Topology,
    units: &[Unit],
) -> Result<Vec<u32>, OutOfMemory>
    requires { AreOn (λ u. u.core) topology.now units.now }
    ensures count { IfOk result (λ retired. length retired.items ≡ hart_count topology.now) }
    ensures each { (image : ImageView) (m : Machine) → AreAt (λ u. u.core) (record { image = image; top = topology.now }) m units.now
        → IfOk result (λ retired. (h : ℕ) → h < hart_count topology.now → slice_index retired.items h ≡ (hart_of (record { image = image; top = topology.now }) m h).retired) }
{
    let mut retired = Vec::new(alloc);
    for number in 0..topology.hart_count() {
        retired.push(hart_of(topology, units, number).retired())?;
    }
    Ok(retired)
}
