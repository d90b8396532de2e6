//! The array.
ghost use Rattle.std.specs.Prelude.{◌≡◌, ◌<◌, IfOk, MatchOption};
ghost use Rattle.cache_array.specs.View.{copy_at, with_copy, without_line, empty_array, HasRoom, IsOther, IsOnePerIndex};

use crate::places::{self, Place};
use dash_base::{Line, LineId, OutOfMemory};
use std::alloc::Global;
use std::marker::Model;

/// A direct-mapped array. Contracts see the number of its indexes and a finite map from lines to
/// copies, in which at most one line stands at each index.
///
/// There is one place at each index, so that a call looks at one place.
#[derive(Drop)]
pub struct Array {
    places: Vec<Option<Place>>,
}

impl Model for Array {
    ghost use Rattle.cache_array.specs.View.{ArrayView, array_code};

    ghost Value = { ArrayView };

    ghost coded = { array_code };

    ghost use Rattle.cache_array.specs.Places.{map_of, number, AreDirect};
    ghost use Rattle.std.specs.Prelude.{length};

    ghost view = { λ a. record { lines = length a.places.items; copies = map_of a.places.items } };

    ghost invariant = { λ a. AreDirect number a.places.items };
}

impl Array {
    /// An empty array of `lines` indexes.
    pub fn new(alloc: Global, lines: u32) -> Result<Array, OutOfMemory>
        requires { 0 < lines }
        ensures { IfOk result (λ array. array ≡ empty_array lines) }
    {
        let places = vec![in alloc; None; lines as usize]?;
        Ok(Array { places })
    }

    /// The copy of a line. `None` where the line is not there.
    pub fn get(&self, line: LineId) -> Option<Line>
        ensures copy { result ≡ copy_at self.now line.0 }
        ensures one_per_index { IsOnePerIndex self.now }
    {
        places::copy_of(&self.places, line)
    }

    /// Keeps a copy of a line, in place of the one that it had. No other line may stand at its
    /// index: `victim` says whether one does.
    pub fn set(&mut self, line: LineId, copy: Line)
        requires { HasRoom self.old line.0 }
        ensures { self.new ≡ with_copy self.old line.0 copy }
    {
        places::put(&mut self.places, line, Some(Place { line, copy }));
    }

    /// Drops the copy of a line, if it is there.
    pub fn clear(&mut self, line: LineId)
        ensures { self.new ≡ without_line self.old line.0 }
    {
        if places::copy_of(&self.places, line).is_some() {
            places::put(&mut self.places, line, None);
        }
    }

    /// The other line that stands at this line's index. `None` where there is none.
    pub fn victim(&self, line: LineId) -> Option<LineId>
        ensures other { MatchOption result (HasRoom self.now line.0)
            (λ other. IsOther self.now line.0 other.0) }
        ensures one_per_index { IsOnePerIndex self.now }
    {
        places::other_at(&self.places, line)
    }
}
