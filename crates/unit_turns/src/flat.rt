//! The sequential machine.
ghost use Rattle.std.specs.Prelude.{◌≡◌};

use crate::print_hart;
use dash_base::{HartId, Topology};
use elf_load::Image;
use flat_model::flat_run;
use std::alloc::Global;

/// Lets the harts of one cluster have so many turns, in rotation.
pub fn run(
    rt: &HostRuntime,
    alloc: Global,
    image: &Image,
    topology: &Topology,
    turns: u32,
) -> Option<()>
    requires { topology.now.clusters ≡ 1 }
{
    let mut order = Vec::new(alloc);
    'turns: for turn in 0..turns {
        order.push(HartId(turn % topology.harts)).ok()?;
    }
    let end = flat_run(alloc, image, topology, &order).ok()?;
    let mut number: u32 = 0;
    for hart in &end.harts {
        print_hart(rt, number, hart)?;
        number = number.saturating_add(1);
    }
    println!(rt; "accesses {}", end.accesses.len()).ok()
}
