//! The bus.
ghost use Rattle.std.specs.Prelude.{◌≡◌, ◌<◌, ◌≢◌, ◌↔◌, IsTrue, IsSome, Some, None, IfOk, MatchOption};
ghost use Rattle.dash_base.specs.declared.topology.Topology.{Topology};
ghost use Rattle.snoop_bus.specs.Holding.{alone, is_owner};
ghost use Rattle.snoop_bus.specs.View.{BusView, harts, holding_at, holders_at, owner_at, copy_of, is_holder, owns_alone, HasHartRoom, IsHartOther, IsOneMap, empty_bus, after_bus_read, after_bus_own, after_commit, after_install, after_drop, after_clear, after_downgrade, hart_read_of, after_hart_read};

use crate::hart_caches::HartCaches;
use crate::harts;
use dash_base::{Line, LineId, OutOfMemory, Topology};
use std::alloc::Global;
use std::marker::Model;

/// The caches of a cluster's harts. Contracts see one map from lines to their holders, as bits by
/// local hart, their owner, a local hart, and their copy; and for each hart the set of lines in its
/// L1.
///
/// Each hart of a call is a local one.
#[derive(Drop)]
pub struct Bus {
    harts: Vec<HartCaches>,
}

impl Model for Bus {
    ghost use Rattle.snoop_bus.specs.View.{BusView, bus_code};

    ghost Value = { BusView };

    ghost coded = { bus_code };

    ghost use Rattle.snoop_bus.specs.Shared.{bus_of, AreOneMap};

    ghost view = { λ b. bus_of b.harts.items };

    ghost invariant = { λ b. AreOneMap b.harts.items };
}

impl Bus {
    /// Empty caches for each hart of a cluster.
    pub fn new(alloc: Global, topology: &Topology) -> Result<Bus, OutOfMemory>
        ensures { IfOk result (λ bus.
            bus ≡ empty_bus topology.now.harts topology.now.l1 topology.now.l2) }
    {
        Ok(Bus {
            harts: harts::empty(alloc, topology.harts, topology.l1, topology.l2)?,
        })
    }

    /// How many harts there are. Each hart of a call is below this.
    pub fn harts(&self) -> u32
        ensures { result ≡ harts self.now }
    {
        self.harts.len() as u32
    }

    /// What every bus keeps: the caches of its harts are one map. A line that is held has holders, one
    /// copy, and at most one owner, who is a holder. The call does nothing.
    pub fn keeps_one_map(&self)
        ensures { IsOneMap self.now }
    {
        let _harts = &self.harts;
    }

    /// The harts that hold a line: bit `i` for the hart `i`.
    pub fn holders(&self, line: LineId) -> u32
        ensures { result ≡ holders_at self.now line.0 }
    {
        harts::holders(&self.harts, line)
    }

    /// The hart that owns a line. `None` where there is no owner.
    pub fn owner(&self, line: LineId) -> Option<u32>
        ensures { result ≡ owner_at self.now line.0 }
    {
        harts::owner(&self.harts, line)
    }

    /// Whether a hart holds a line. It looks at the caches of that hart alone.
    pub fn holds(&self, hart: u32, line: LineId) -> bool
        ensures { result ≡ is_holder self.now hart line.0 }
    {
        match self.harts.get(hart as usize) {
            Some(caches) => caches.holds(line),
            None => false,
        }
    }

    /// Whether a hart is the owner of a line. It looks at the caches of that hart alone.
    pub fn owns(&self, hart: u32, line: LineId) -> bool
        ensures { result ≡ is_owner (owner_at self.now line.0) hart }
    {
        match self.harts.get(hart as usize) {
            Some(caches) => caches.owns(line),
            None => false,
        }
    }

    /// Whether a hart is the owner of a line and its only holder.
    pub fn owns_alone(&self, hart: u32, line: LineId) -> bool
        requires { hart < 32 }
        ensures { result ≡ owns_alone self.now hart line.0 }
    {
        if !self.owns(hart, line) {
            return false;
        }
        self.holders(line) == 1 << hart
    }

    /// The cluster's copy of a line, with no change to any L1. `None` where no hart holds the line.
    pub fn peek(&self, line: LineId) -> Option<Line>
        ensures { result ≡ copy_of self.now line.0 }
    {
        harts::copy(&self.harts, line)
    }

    /// Whether the hart holds no other line with the index of this one.
    pub fn room(&self, hart: u32, line: LineId) -> bool
        requires { hart < harts self.now }
        ensures { IsTrue result ↔ HasHartRoom self.now hart line.0 }
    {
        self.victim(hart, line).is_none()
    }

    /// The other line that the hart holds with the index of this one. `None` where there is none.
    pub fn victim(&self, hart: u32, line: LineId) -> Option<LineId>
        requires { hart < harts self.now }
        ensures { MatchOption result (HasHartRoom self.now hart line.0)
            (λ other. IsHartOther self.now hart line.0 other.0) }
    {
        self.harts[hart as usize].victim(line)
    }

    /// The copy of a line and the level that the hart reads it at: 1 where its L1 has the line, and
    /// else 2. At level 2 the line enters the hart's L1, in place of the line at its index there.
    /// `None` where the hart does not hold the line.
    pub fn read(&mut self, hart: u32, line: LineId) -> Option<(Line, u32)>
        requires { hart < harts self.old }
        ensures answer { result ≡ hart_read_of self.old hart line.0 }
        ensures after { self.new ≡ after_hart_read self.old hart line.0 }
    {
        let caches = &mut self.harts[hart as usize];
        caches.read(line)
    }

    /// The hart becomes a holder of a line that another hart may hold too. There is a copy in the
    /// cluster, as `peek` says, and the hart has `room`.
    pub fn bus_read(&mut self, hart: u32, line: LineId)
        requires hart_in_range { hart < harts self.old }
        requires held { copy_of self.old line.0 ≢ None }
        requires room { HasHartRoom self.old hart line.0 }
        ensures { self.new ≡ after_bus_read self.old hart line.0 }
    {
        harts::join(&mut self.harts, hart as usize, line);
    }

    /// The hart becomes the only holder of a line, and its owner. There is an owner in the cluster,
    /// as `owner` says, and the hart has `room`.
    pub fn bus_own(&mut self, hart: u32, line: LineId)
        requires hart_in_range { hart < harts self.old }
        requires owned { owner_at self.old line.0 ≢ None }
        requires room { HasHartRoom self.old hart line.0 }
        ensures { self.new ≡ after_bus_own self.old hart line.0 }
    {
        let copy = harts::copy(&self.harts, line).unwrap();
        harts::take(&mut self.harts, hart as usize, line, copy, true);
    }

    /// The hart, which is the owner and the only holder of a line, writes it.
    pub fn commit(&mut self, hart: u32, line: LineId, copy: Line)
        requires hart_in_range { hart < harts self.old }
        requires owner { owner_at self.old line.0 ≡ Some hart }
        requires only_holder { holders_at self.old line.0 ≡ alone hart }
        ensures { self.new ≡ after_commit self.old line.0 copy }
    {
        let caches = &mut self.harts[hart as usize];
        caches.write(line, copy);
    }

    /// The hart becomes the only holder of a copy that came, as its owner or not. It has `room`.
    /// The line leaves the L1 of every other hart, and enters none.
    pub fn install(&mut self, hart: u32, line: LineId, copy: Line, own: bool)
        requires hart_in_range { hart < harts self.old }
        requires room { HasHartRoom self.old hart line.0 }
        ensures { self.new ≡ after_install self.old hart line.0 copy own }
    {
        harts::take(&mut self.harts, hart as usize, line, copy, own);
    }

    /// The hart no longer holds a line. Where it was the owner there is none, and where it was the
    /// last holder the copy is gone.
    pub fn drop_one(&mut self, hart: u32, line: LineId)
        requires { hart < harts self.old }
        ensures { self.new ≡ after_drop self.old hart line.0 }
    {
        harts::leave(&mut self.harts, hart as usize, line);
    }

    /// No hart holds a line any more.
    pub fn clear_all(&mut self, line: LineId)
        ensures { self.new ≡ after_clear self.old line.0 }
    {
        harts::clear(&mut self.harts, line);
    }

    /// No hart owns a line any more, and its holders keep their copy.
    pub fn downgrade(&mut self, line: LineId)
        ensures { self.new ≡ after_downgrade self.old line.0 }
    {
        harts::disown(&mut self.harts, line);
    }
}
