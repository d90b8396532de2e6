//! Units in which nothing is under way.
ghost use Rattle.std.specs.Prelude.{◌≡◌, ℕ, ◌<◌, ◌↔◌, [], None, length, slice_index_or, IsTrue};
ghost use Rattle.remote_cache.specs.View.{slot_at, count};
ghost use Rattle.dash_model.specs.Part.{Part};
ghost use Rattle.cluster_unit.specs.Core.{IsAt};
ghost use Rattle.cluster_unit.specs.Quiet.{IsQuiet};

use crate::unit::Unit;
use crate::unit_core::Core;
use remote_cache::Slots;
use unit_rows::Local;

impl Unit {
    /// Whether no line has a slot or acknowledgements, and no store waits in its cluster.
    pub fn quiet(&self) -> bool
        ensures { (p : Part) → IsAt self.now.core p → (IsTrue result ↔ IsQuiet self.now.core.config self.now.core.cluster p) }
    {
        self.core.quiet()
    }
}

impl Core {
    /// Whether no line has a slot or acknowledgements, and no store waits in its cluster.
    pub fn quiet(&self) -> bool
        ensures { (p : Part) → IsAt self.now p → (IsTrue result ↔ IsQuiet self.now.config self.now.cluster p) }
    {
        if !self.parts.acks.is_empty() {
            return false;
        }
        if !are_empty(&self.parts.slots) {
            return false;
        }
        have_no_stores(&self.parts.locals)
    }
}

/// Whether no slot has a line.
fn are_empty(slots: &Slots) -> bool
    ensures { IsTrue result ↔ ((n : ℕ) → n < count slots.now → slot_at slots.now n ≡ None) }
{
    for id in 0..slots.count() {
        if slots.get(id).is_some() {
            return false;
        }
    }
    true
}

/// Whether no store of these harts waits.
fn have_no_stores(locals: &[Local]) -> bool
    ensures { IsTrue result ↔ ((k : ℕ) (x : _) → k < length locals.now → (slice_index_or locals.now k x).buffer.items ≡ []) }
{
    for local in locals {
        if local.buffer.len() > 0 {
            return false;
        }
    }
    true
}
