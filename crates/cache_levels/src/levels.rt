//! L1 within L2.
ghost use Rattle.std.specs.Prelude.{◌≡◌, ◌<◌, true, IfOk, MatchOption};
ghost use Rattle.cache_array.specs.View.{copy_at, has_line, HasRoom, IsOther, IsOnePerIndex};
ghost use Rattle.cache_levels.specs.View.{empty_levels, with_level_copy, without_level_line, read_of, after_read, IsPartOfL2};

use crate::line_set::LineSet;
use cache_array::Array;
use dash_base::{Line, LineId, OutOfMemory};
use std::alloc::Global;
use std::marker::Model;

/// The caches of one hart. Contracts see L2 as an array, and of L1 the number of its indexes and
/// the set of the lines that it has, a part of those of L2.
///
/// L1 keeps which lines it has, and L2 has the only copy of each.
#[derive(Drop)]
pub struct Levels {
    l1: LineSet,
    l2: Array,
}

impl Model for Levels {
    ghost use Rattle.cache_levels.specs.View.{LevelsView, levels_code};

    ghost Value = { LevelsView };

    ghost coded = { levels_code };

    ghost use Rattle.cache_levels.specs.Within.{IsWithin};

    ghost view = { λ v. record { l1_lines = v.l1.lines; l1 = v.l1.held; l2 = v.l2 } };

    ghost invariant = { λ v. IsWithin v.l1 v.l2 };
}

impl Levels {
    /// Two empty levels of `l1` and `l2` indexes.
    pub fn new(alloc: Global, l1: u32, l2: u32) -> Result<Levels, OutOfMemory>
        requires l1_some { 0 < l1 }
        requires l2_some { 0 < l2 }
        ensures { IfOk result (λ levels. levels ≡ empty_levels l1 l2) }
    {
        let l1 = LineSet::new(alloc, l1)?;
        let l2 = Array::new(alloc, l2)?;
        Ok(Levels { l1, l2 })
    }

    /// The copy of a line and the level that it is read at: 1 where L1 has the line, and else 2. At
    /// level 2 the line enters L1, in place of the line at its index there. `None` where L2 lacks
    /// the line.
    pub fn read(&mut self, line: LineId) -> Option<(Line, u32)>
        ensures answer { result ≡ read_of self.old line.0 }
        ensures after { self.new ≡ after_read self.old line.0 }
    {
        let copy = self.l2.get(line)?;
        if self.l1.has(line) {
            return Some((copy, 1));
        }
        self.l1.enter(line);
        Some((copy, 2))
    }

    /// The copy of a line, with no change to L1. `None` where L2 lacks the line.
    pub fn peek(&self, line: LineId) -> Option<Line>
        ensures copy { result ≡ copy_at self.now.l2 line.0 }
        ensures one_per_index { IsOnePerIndex self.now.l2 }
        ensures part { IsPartOfL2 self.now }
    {
        self.l2.get(line)
    }

    /// Keeps a new copy of a line that is there. L1 has the lines that it had.
    pub fn write_owned(&mut self, line: LineId, copy: Line)
        requires { has_line self.old.l2 line.0 ≡ true }
        ensures { self.new ≡ with_level_copy self.old line.0 copy }
    {
        self.l2.set(line, copy);
    }

    /// Keeps a copy of a line in L2, in place of the one that it had. No other line may stand at
    /// its index in L2: `victim` says whether one does. L1 has the lines that it had.
    pub fn install(&mut self, line: LineId, copy: Line)
        requires { HasRoom self.old.l2 line.0 }
        ensures { self.new ≡ with_level_copy self.old line.0 copy }
    {
        self.l2.set(line, copy);
    }

    /// Drops a line from both levels, if it is there.
    pub fn clear_line(&mut self, line: LineId)
        ensures { self.new ≡ without_level_line self.old line.0 }
    {
        self.l1.clear(line);
        self.l2.clear(line);
    }

    /// The other line that stands at this line's index in L2. `None` where there is none.
    pub fn victim(&self, line: LineId) -> Option<LineId>
        ensures other { MatchOption result (HasRoom self.now.l2 line.0)
            (λ other. IsOther self.now.l2 line.0 other.0) }
        ensures one_per_index { IsOnePerIndex self.now.l2 }
    {
        self.l2.victim(line)
    }
}
