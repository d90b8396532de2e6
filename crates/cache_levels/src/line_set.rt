//! A direct-mapped set of lines.
ghost use Rattle.std.specs.Prelude.{◌≡◌, ◌<◌, ◌%◌, length, slice_set, IfOk};
ghost use Rattle.cache_array.specs.Places.{place_at};
ghost use Rattle.cache_levels.specs.LineSet.{LineSetView, has, empty_set, with_line, without};
ghost use Rattle.cache_levels.specs.Places.{is_place_of};

use dash_base::{LineId, OutOfMemory};
use std::alloc::Global;
use std::marker::Model;

/// A set of lines, in which at most one line stands at each index. There is one place at each
/// index, so that a call looks at one place.
#[derive(Drop)]
pub struct LineSet {
    places: Vec<Option<LineId>>,
}

impl Model for LineSet {
    ghost use Rattle.cache_levels.specs.LineSet.{LineSetView, set_code};

    ghost Value = { LineSetView };

    ghost coded = { set_code };

    ghost use Rattle.cache_array.specs.Places.{AreDirect};
    ghost use Rattle.cache_levels.specs.Places.{lines_of, number};
    ghost use Rattle.std.specs.Prelude.{length};

    ghost view = { λ s. record { lines = length s.places.items; held = lines_of s.places.items } };

    ghost invariant = { λ s. AreDirect number s.places.items };
}

impl LineSet {
    /// The empty set of `lines` indexes.
    pub fn new(alloc: Global, lines: u32) -> Result<LineSet, OutOfMemory>
        requires { 0 < lines }
        ensures { IfOk result (λ set. set ≡ empty_set lines) }
    {
        let places = vec![in alloc; None; lines as usize]?;
        Ok(LineSet { places })
    }

    /// Whether a line is there.
    pub fn has(&self, line: LineId) -> bool
        ensures { result ≡ has self.now line.0 }
    {
        is_at(&self.places, line)
    }

    /// Puts a line in place of the line at its index.
    pub fn enter(&mut self, line: LineId)
        ensures { self.new ≡ with_line self.old line.0 }
    {
        put(&mut self.places, line, Some(line));
    }

    /// Drops a line, if it is there.
    pub fn clear(&mut self, line: LineId)
        ensures { self.new ≡ without self.old line.0 }
    {
        if is_at(&self.places, line) {
            put(&mut self.places, line, None);
        }
    }
}

/// The index of a line.
fn index_in(places: &[Option<LineId>], line: LineId) -> usize
    requires { 0 < length places.now }
    ensures value { result ≡ line.0 % length places.now }
    ensures within { result < length places.now }
{
    line.0 as usize % places.len()
}

/// Whether a line stands at its index.
fn is_at(places: &[Option<LineId>], line: LineId) -> bool
    requires { 0 < length places.now }
    ensures { result ≡ is_place_of line.0 (place_at places.now line.0) }
{
    match places[index_in(places, line)] {
        Some(there) => there == line,
        None => false,
    }
}

/// Makes this the place at the index of a line.
fn put(places: &mut [Option<LineId>], line: LineId, place: Option<LineId>)
    requires { 0 < length places.old }
    ensures { places.new ≡ slice_set places.old (line.0 % length places.old) place }
{
    let index = index_in(places, line);
    places[index] = place;
}
