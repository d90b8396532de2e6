//! The caches of one hart, and which of its lines it owns.
ghost use Rattle.std.specs.Prelude.{◌≡◌, ◌<◌, ◌%◌, true, length, IfOk, MatchOption};
ghost use Rattle.cache_array.specs.View.{copy_at, has_line, HasRoom, IsOther, IsOnePerIndex};
ghost use Rattle.cache_levels.specs.View.{read_of, IsPartOfL2};
ghost use Rattle.snoop_bus.specs.Caches.{owns, no_caches, caches_with, caches_written, caches_without, caches_shared, caches_read};

use cache_levels::Levels;
use dash_base::{Line, LineId, OutOfMemory};
use std::alloc::Global;
use std::marker::Model;

/// One hart's two cache levels, with a mark at each index of L2: whether the hart owns the line
/// that stands there. Contracts see the levels, and the set of the lines that the hart owns.
#[derive(Drop)]
pub struct HartCaches {
    levels: Levels,
    owned: Vec<bool>,
}

impl Model for HartCaches {
    ghost use Rattle.snoop_bus.specs.Caches.{CachesView, caches_code};

    ghost Value = { CachesView };

    ghost coded = { caches_code };

    ghost use Rattle.snoop_bus.specs.Marks.{owned_in, AreMarks};

    ghost view = { λ h. record { levels = h.levels; owned = owned_in h.owned.items h.levels.l2 } };

    ghost invariant = { λ h. AreMarks h.owned.items h.levels.l2 };
}

impl HartCaches {
    /// Empty caches of `l1` and `l2` indexes.
    pub fn new(alloc: Global, l1: u32, l2: u32) -> Result<HartCaches, OutOfMemory>
        requires l1_some { 0 < l1 }
        requires l2_some { 0 < l2 }
        ensures { IfOk result (λ caches. caches ≡ no_caches l1 l2) }
    {
        let levels = Levels::new(alloc, l1, l2)?;
        let owned = vec![in alloc; false; l2 as usize]?;
        Ok(HartCaches { levels, owned })
    }

    /// The copy of a line. `None` where the hart does not hold it.
    pub fn peek(&self, line: LineId) -> Option<Line>
        ensures copy { result ≡ copy_at self.now.levels.l2 line.0 }
        ensures one_per_index { IsOnePerIndex self.now.levels.l2 }
        ensures part { IsPartOfL2 self.now.levels }
    {
        self.levels.peek(line)
    }

    /// Whether the hart holds a line.
    pub fn holds(&self, line: LineId) -> bool
        ensures { result ≡ has_line self.now.levels.l2 line.0 }
    {
        self.levels.peek(line).is_some()
    }

    /// Whether the hart owns a line.
    pub fn owns(&self, line: LineId) -> bool
        ensures { result ≡ owns self.now line.0 }
    {
        self.levels.peek(line).is_some() && self.owned[index_in(&self.owned, line)]
    }

    /// The other line that stands at this line's index in L2. `None` where there is none.
    pub fn victim(&self, line: LineId) -> Option<LineId>
        ensures other { MatchOption result (HasRoom self.now.levels.l2 line.0)
            (λ other. IsOther self.now.levels.l2 line.0 other.0) }
    {
        self.levels.victim(line)
    }

    /// The copy of a line and the level that it is read at, as `Levels::read` has it.
    pub fn read(&mut self, line: LineId) -> Option<(Line, u32)>
        ensures answer { result ≡ read_of self.old.levels line.0 }
        ensures after { self.new ≡ caches_read self.old line.0 }
    {
        self.levels.read(line)
    }

    /// Keeps a copy of a line for which there is room, as its owner or not.
    pub fn install(&mut self, line: LineId, copy: Line, own: bool)
        requires { HasRoom self.old.levels.l2 line.0 }
        ensures { self.new ≡ caches_with self.old line.0 copy own }
    {
        self.levels.install(line, copy);
        let index = index_in(&self.owned, line);
        self.owned[index] = own;
    }

    /// Keeps a new copy of a line that the hart holds, as its owner or not, as before.
    pub fn write(&mut self, line: LineId, copy: Line)
        requires { has_line self.old.levels.l2 line.0 ≡ true }
        ensures { self.new ≡ caches_written self.old line.0 copy }
    {
        self.levels.write_owned(line, copy);
    }

    /// Drops a line from both levels, if it is there.
    pub fn clear(&mut self, line: LineId)
        ensures { self.new ≡ caches_without self.old line.0 }
    {
        self.levels.clear_line(line);
    }

    /// Gives up the ownership of a line, if it is the hart's, and keeps the copy.
    pub fn disown(&mut self, line: LineId)
        ensures { self.new ≡ caches_shared self.old line.0 }
    {
        if self.levels.peek(line).is_some() {
            let index = index_in(&self.owned, line);
            self.owned[index] = false;
        }
    }
}

/// The index of a line among the marks.
fn index_in(owned: &[bool], line: LineId) -> usize
    requires { 0 < length owned.now }
    ensures value { result ≡ line.0 % length owned.now }
    ensures within { result < length owned.now }
{
    line.0 as usize % owned.len()
}
