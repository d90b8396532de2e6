//! The parts of a cluster at the start of a run.
ghost use Rattle.std.specs.Prelude.{◌≡◌, ◌<◌, IfOk};
ghost use Rattle.unit_rows.specs.Shown.{config, shown};
ghost use Rattle.unit_rows.specs.Opening.{IsOpeningLocal, AreOpening, IsOpening};

use crate::parts::{Local, Parts};
use crate::site::Site;
use ack_counter::AckTable;
use dash_base::OutOfMemory;
use directory::Home;
use hart_core::Hart;
use queue_lock::Locks;
use remote_cache::Slots;
use snoop_bus::Bus;
use std::alloc::Global;
use write_buffer::Buffer;

/// The parts of a cluster at the start: harts at the entry of the image, nothing held, asked for or
/// stored, and the lines and lock words whose home it is as the image has them. They take all the
/// memory that they are to need.
pub fn opening_parts(alloc: Global, site: &Site) -> Result<Parts, OutOfMemory>
    ensures { IfOk result (λ parts. IsOpening (config site.now) site.now.cluster.0 (shown parts)) }
{
    let topology = &site.topology;
    Ok(Parts {
        locals: opening_locals(alloc, site)?,
        bus: Bus::new(alloc, topology)?,
        slots: Slots::new(topology.harts, topology.prefetch),
        acks: AckTable::new(topology.acks),
        home: Home::new(alloc, topology, site.cluster, &site.image)?,
        locks: Locks::new(alloc, topology, site.cluster)?,
    })
}

/// The harts of a cluster at the start, by their numbers in it.
fn opening_locals(alloc: Global, site: &Site) -> Result<Vec<Local>, OutOfMemory>
    ensures { IfOk result (λ locals. AreOpening (config site.now) site.now.cluster.0 site.now.topology.harts locals.items) }
{
    let mut locals = Vec::with_capacity(alloc, site.topology.harts as usize)?;
    for hart in 0..site.topology.harts {
        locals.push(opening_local(alloc, site, hart)?)?;
    }
    Ok(locals)
}

/// A hart at the start.
fn opening_local(alloc: Global, site: &Site, hart: u32) -> Result<Local, OutOfMemory>
    requires { hart < site.now.topology.harts }
    ensures { IfOk result (λ local. IsOpeningLocal (config site.now) site.now.cluster.0 hart local) }
{
    let core = Hart::new(&site.image, &site.topology, site.hart_id(hart));
    let front = core.front(&site.image, &site.topology);
    Ok(Local {
        core,
        front,
        reserved: None,
        buffer: Buffer::new(alloc, site.topology.buffer)?,
        asked: false,
    })
}
