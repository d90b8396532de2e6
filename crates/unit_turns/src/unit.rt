//! A cluster as a unit.
ghost use Rattle.std.specs.Prelude.{◌≡◌};

use crate::print_hart;
use cluster_unit::{Turn, Unit, units};
use dash_base::Topology;
use elf_load::Image;
use std::alloc::Global;

/// Lets the unit of the first cluster have so many turns.
pub fn run(
    rt: &HostRuntime,
    alloc: Global,
    image: &Image,
    topology: &Topology,
    turns: u32,
) -> Option<()>
    requires { topology.now.clusters ≡ 1 }
{
    let mut arbiters = Vec::new(alloc);
    arbiters.push(None).ok()?;
    let mut units = units(alloc, topology, image, arbiters).ok()?;
    let unit = units.get_mut(0)?;
    take_turns(unit, turns)?;
    for hart in 0..unit.core.harts() {
        print_hart(rt, hart, unit.core.hart(hart))?;
    }
    println!(rt; "events {}", unit.core.log().len()).ok()
}

/// Takes so many turns.
fn take_turns(unit: &mut Unit, turns: u32) -> Option<()> {
    for _turn in 0..turns {
        if unit.core.reserved() == 0 {
            unit.core.reserve(256).ok()?;
        }
        if unit.core.reserved() > 0 && unit.turn() == Turn::Idle {
            return Some(());
        }
    }
    Some(())
}
