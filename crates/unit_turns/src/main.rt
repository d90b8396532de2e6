//! Turns of one engine, to be timed: `unit_turns ENGINE IMAGE HARTS TURNS`. The engine `unit` is a cluster of so
//! many harts that chooses in rotation, and `flat` the sequential machine whose harts have their turns in
//! rotation. It runs the image for so many turns, and prints where each hart is then, how many instructions it
//! retired, and how many events (of `unit`) or accesses (of `flat`) were kept. It ends with status 1 where the
//! words are others, the file is no image, or there is no memory.
#![tactic(auto)]

use dash_base::Topology;
use elf_load::{Image, MemoryMap, load};
use hart_core::Hart;
use std::alloc::Global;
use std::env;
use std::fs::File;
use std::io::Read;
use std::process::ExitCode;

mod flat;
mod unit;

/// The instructions of all harts together.
const BUDGET: u32 = 2_000_000;

fn main(rt: HostRuntime) -> ExitCode {
    match run(&rt) {
        Some(()) => ExitCode::SUCCESS,
        None => ExitCode::FAILURE,
    }
}

/// Does what the words say.
fn run(rt: &HostRuntime) -> Option<()> {
    let alloc = rt.alloc();
    let mut words = Vec::new(alloc);
    for word in env::args(rt).ok()? {
        words.push(word).ok()?;
    }
    let image = image(rt, alloc, words.get(2)?.as_str())?;
    let harts = words.get(3)?.parse::<u32>().ok()?;
    let turns = words.get(4)?.parse::<u32>().ok()?;
    if harts == 0 {
        return None;
    }
    let topology = Topology::simple(1, harts, BUDGET / harts).ok()?;
    if topology.clusters != 1 {
        return None;
    }
    match words.get(1)?.as_str() {
        "unit" => unit::run(rt, alloc, &image, &topology, turns),
        "flat" => flat::run(rt, alloc, &image, &topology, turns),
        _ => None,
    }
}

/// The image in a file with a name.
fn image(rt: &HostRuntime, alloc: Global, name: &str) -> Option<Image> {
    let mut bytes = Vec::new(alloc);
    File::open(rt, name).ok()?.read_to_end(&mut bytes).ok()?;
    let map = MemoryMap {
        base: 0,
        size: 0x10_0000,
    };
    load(alloc, &bytes, map).ok()
}

/// Prints where a hart is, and how many instructions it retired.
fn print_hart(rt: &HostRuntime, number: u32, hart: &Hart) -> Option<()> {
    let (pc, retired) = (hart.pc(), hart.retired());
    println!(rt; "hart {number} pc {pc} retired {retired}").ok()
}
