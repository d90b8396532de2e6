//! The end of a lane that receives.
ghost use Rattle.std.specs.Prelude.{◌≡◌, ◌<◌, [], ◌∷◌, ◌++◌, length, IsSome, IfSome, IfNone};
ghost use mathlib.Core.List.{IsPrefix};

use dash_msg::Parcel;
use rtrb::Consumer;
use std::marker::Model;

/// The receiving end of a lane. Contracts see which lane it is of, all that was `received`, and the
/// parcels in the ring that it has seen and not taken, `known`.
#[derive(Drop)]
pub struct Inlet {
    pub(crate) ring: Consumer<Parcel>,
}

impl Model for Inlet {
    ghost use Rattle.mesh_lanes.specs.View.{InletView};

    ghost Value = { InletView };

    ghost use Rattle.rtrb.specs.Ring.{received, known_items};

    ghost view = { λ i. record {
      lane = record { words = i.ring.end.words; slots = i.ring.end.slots; names = i.ring.end.names };
      received = received i.ring;
      known = known_items i.ring;
    } };
}

impl Inlet {
    /// Takes the next parcel. `None` only where the ring shows none at the return. Where none is known
    /// at the call, it looks what the other end has put there.
    pub fn take(&mut self) -> Option<Parcel>
        ensures lane { self.new.lane ≡ self.old.lane }
        ensures some { IfSome result (λ p. self.new.received ≡ self.old.received ++ p ∷ []) }
        ensures next { IfSome result (λ p. IsPrefix self.old.known (p ∷ self.new.known)) }
        ensures none { IfNone result ((self.new.received ≡ self.old.received) × (self.new.known ≡ [])) }
        ensures known { 0 < length self.old.known → IsSome result }
    {
        self.ring.pop().ok()
    }

    /// The next parcel, which stays: the next `take` gives it. `None` as for `take`.
    pub fn peek(&mut self) -> Option<Parcel>
        ensures lane { self.new.lane ≡ self.old.lane }
        ensures received { self.new.received ≡ self.old.received }
        ensures known { IsPrefix self.old.known self.new.known }
        ensures some { IfSome result (λ p. IsPrefix (p ∷ []) self.new.known) }
        ensures none { IfNone result (self.new.known ≡ []) }
    {
        if self.ring.is_empty() {
            return None;
        }
        Some(*self.ring.peek_known())
    }
}
