//! The core of a unit: its cluster's parts, and the log of what happened there.
ghost use Rattle.std.specs.Prelude.{◌≡◌, ℕ, ◌*◌, ◌<◌, ◌≤◌, [], length, slice_index_or, IfOk};
ghost use Rattle.mesh_lanes.specs.View.{OutletView, InletView};
ghost use Rattle.dash_model.specs.Part.{Part};
ghost use Rattle.unit_rows.specs.Shown.{config, hart_at};
ghost use Rattle.cluster_unit.specs.Core.{HasRun, IsAt, IsWeighed};

use dash_base::OutOfMemory;
use dash_event::Event;
use hart_core::Hart;
use mesh_lanes::{Inlet, Outlet};
use std::alloc::Global;
use std::marker::Model;
use unit_rows::{Parts, Site, opening_parts};

/// The core of a unit. Contracts see what it runs and as which cluster, its log, the ends of its lanes,
/// for how many turns it has memory, and the weight of what it has left to settle. Whatever is called and whatever the lanes bring, its log is
/// that of a run of its cluster by itself, as `has_run` tells.
#[derive(Drop)]
pub struct Core {
    pub(crate) site: Site,
    pub(crate) parts: Parts,
    pub(crate) log: Vec<Event>,
    pub(crate) last: u64,
    pub(crate) outlets: Vec<Outlet>,
    pub(crate) inlets: Vec<Inlet>,
    pub(crate) reserved: u32,
}

impl Model for Core {
    ghost use Rattle.std.specs.Prelude.{vec_capacity};
    ghost use Rattle.cluster_unit.specs.View.{CoreView};

    ghost Value = { CoreView };

    ghost use Rattle.unit_rows.specs.Shown.{shown};
    ghost use Rattle.unit_rows.specs.Left.{weight_left};
    ghost use Rattle.cluster_unit.specs.Core.{IsCore};

    ghost view = { λ c. record {
      config = record { image = c.site.image; top = c.site.topology };
      cluster = c.site.cluster.0;
      log = c.log.items;
      outlets = c.outlets.items;
      inlets = c.inlets.items;
      reserved = c.reserved;
      weight = weight_left (record { image = c.site.image; top = c.site.topology }) c.site.cluster.0 (shown c.parts);
    } };

    ghost invariant = { λ c. IsCore (shown c.parts) c.last (record {
      config = record { image = c.site.image; top = c.site.topology };
      cluster = c.site.cluster.0;
      log = c.log.items;
      outlets = c.outlets.items;
      inlets = c.inlets.items;
      reserved = c.reserved;
      weight = weight_left (record { image = c.site.image; top = c.site.topology }) c.site.cluster.0 (shown c.parts);
    }) (vec_capacity c.log) };
}

impl Core {
    /// The core of a cluster at the start of a run, with the ends of its lanes, through which nothing
    /// went yet. It takes all the memory that it needs, but for its log and its lanes.
    pub fn new(
        alloc: Global,
        site: Site,
        outlets: Vec<Outlet>,
        inlets: Vec<Inlet>,
    ) -> Result<Core, OutOfMemory>
        requires outlets { length outlets.items ≡ 2 * site.topology.clusters }
        requires inlets { length inlets.items ≡ 2 * site.topology.clusters }
        requires unsent { (j : ℕ) (x : OutletView) → j < length outlets.items → (slice_index_or outlets.items j x).sent ≡ [] }
        requires untaken { (j : ℕ) (x : InletView) → j < length inlets.items → (slice_index_or inlets.items j x).received ≡ [] }
        ensures { IfOk result (λ core. core ≡ record { config = config site; cluster = site.cluster.0; log = []; outlets = outlets.items; inlets = inlets.items; reserved = 0; weight = core.weight }) }
    {
        let parts = opening_parts(alloc, &site)?;
        Ok(Core {
            site,
            parts,
            log: Vec::new(alloc),
            last: 0,
            outlets,
            inlets,
            reserved: 0,
        })
    }

    /// Its log is a run of its cluster by itself, its lanes carry what that run sent and took, and its
    /// weight is that of the part of the machine that the run leads to.
    pub fn has_run(&self)
        ensures run { HasRun self.now }
        ensures weight { IsWeighed self.now }
    {
        let _log = &self.log;
    }

    /// How many harts its cluster has: from 1 to 4.
    pub fn harts(&self) -> u32
        ensures harts { result ≡ self.now.config.top.harts }
        ensures few { result ≤ 4 }
    {
        self.site.topology.harts
    }

    /// For how many turns it has memory.
    pub fn reserved(&self) -> u32
        ensures { result ≡ self.now.reserved }
    {
        self.reserved
    }

    /// What happened in its cluster so far.
    pub fn log(&self) -> &[Event]
        ensures { result.now ≡ self.now.log }
    {
        self.log.as_slice()
    }

    /// A hart of the cluster, by its number there: as the part has it that the log leads to.
    pub fn hart(&self, hart: u32) -> &Hart
        requires { hart < self.now.config.top.harts }
        ensures { (p : Part) → IsAt self.now p → result.now ≡ (p.harts (hart_at self.now.config self.now.cluster hart)).core }
    {
        &self.parts.locals[hart as usize].core
    }

    /// Whether a hart's lock instruction was sent and is not answered.
    pub fn asked(&self, hart: u32) -> bool
        requires { hart < self.now.config.top.harts }
        ensures { (p : Part) → IsAt self.now p → result ≡ (p.harts (hart_at self.now.config self.now.cluster hart)).asked }
    {
        self.parts.locals[hart as usize].asked
    }
}
