//! The places of an array: one at each index, empty or with a line and its copy.
ghost use Rattle.std.specs.Prelude.{◌≡◌, ◌<◌, ◌%◌, length, slice_set};
ghost use Rattle.cache_array.specs.Places.{place_at, copy_in, other_in};

use dash_base::{Line, LineId};

/// A line and its copy.
#[derive(Clone, Copy)]
pub struct Place {
    pub line: LineId,
    pub copy: Line,
}

/// The index of a line.
fn index_in(places: &[Option<Place>], line: LineId) -> usize
    requires { 0 < length places.now }
    ensures value { result ≡ line.0 % length places.now }
    ensures within { result < length places.now }
{
    line.0 as usize % places.len()
}

/// The place at the index of a line.
fn place_at(places: &[Option<Place>], line: LineId) -> Option<Place>
    requires { 0 < length places.now }
    ensures { result ≡ place_at places.now line.0 }
{
    places[index_in(places, line)]
}

/// The copy of a line.
pub fn copy_of(places: &[Option<Place>], line: LineId) -> Option<Line>
    requires { 0 < length places.now }
    ensures { result ≡ copy_in line.0 (place_at places.now line.0) }
{
    match place_at(places, line) {
        Some(place) if place.line == line => Some(place.copy),
        _ => None,
    }
}

/// Another line at the index of this one.
pub fn other_at(places: &[Option<Place>], line: LineId) -> Option<LineId>
    requires { 0 < length places.now }
    ensures { result ≡ other_in line.0 (place_at places.now line.0) }
{
    match place_at(places, line) {
        Some(place) if place.line != line => Some(place.line),
        _ => None,
    }
}

/// Makes this the place at the index of a line.
pub fn put(places: &mut [Option<Place>], line: LineId, place: Option<Place>)
    requires { 0 < length places.old }
    ensures { places.new ≡ slice_set places.old (line.0 % length places.old) place }
{
    let index = index_in(places, line);
    places[index] = place;
}
