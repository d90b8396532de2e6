//! Laws of the meaning of instructions. The functions do nothing: their contracts are the laws.
ghost use Rattle.std.specs.Prelude.{◌≡◌, ◌≤◌, ℕ};
ghost use Rattle.dash_base.specs.declared.id.WordAddr.{WordAddr};
ghost use Rattle.dash_base.specs.declared.topology.Topology.{Topology};
ghost use Rattle.elf_load.specs.Image.{ImageView};
ghost use Rattle.hart_core.specs.HartState.{HartState, reg};
ghost use Rattle.hart_core.specs.Access.{IsProper};
ghost use Rattle.hart_core.specs.Meaning.{IsFound, HasByte, Needs, Does, retired_after};
ghost use Rattle.hart_core.specs.declared.found.Found.{Found};
ghost use Rattle.dash_base.specs.declared.need.Need.{Need};
ghost use Rattle.dash_base.specs.declared.need.Need.TheVariants.{Rest, Store};

/// One thing is found at an address.
pub fn one_found()
    ensures { (image : ImageView) → (pc : ℕ) → (a : Found) → (b : Found)
        → IsFound image pc a → IsFound image pc b → a ≡ b }
{}

/// A hart has one need.
pub fn one_need()
    ensures { (image : ImageView) → (t : Topology) → (h : HartState) → (a : Need) → (b : Need)
        → Needs image t h a → Needs image t h b → a ≡ b }
{}

/// A need and an answer make one hart of it.
pub fn one_after()
    ensures { (image : ImageView) → (t : Topology) → (h : HartState) → (j : HartState) → (k : HartState)
        → (need : Need) → (x : ℕ) → Does image t h need x j → Does image t h need x k → j ≡ k }
{}

/// An instruction that can be done with one answer can be done with any.
pub fn any_answer()
    ensures { (image : ImageView) → (t : Topology) → (h : HartState) → (k : HartState)
        → (need : Need) → (x : ℕ) → (y : ℕ) → Does image t h need x k
        → (j : HartState) × Does image t h need y j }
{}

/// One more instruction has retired, unless it trapped.
pub fn retires()
    ensures { (image : ImageView) → (t : Topology) → (h : HartState) → (k : HartState)
        → (need : Need) → (x : ℕ) → Does image t h need x k → k.retired ≡ retired_after need h.retired }
{}

/// No hart passes its budget.
pub fn in_budget()
    ensures { (image : ImageView) → (t : Topology) → (h : HartState) → (k : HartState)
        → (need : Need) → (x : ℕ) → Does image t h need x k → k.retired ≤ t.budget }
{}

/// A hart that can go on does not rest.
pub fn never_rest()
    ensures { (image : ImageView) → (t : Topology) → (h : HartState) → Needs image t h Rest → ⊥ }
{}

/// Register 0 is never written.
pub fn zero_stays()
    ensures { (image : ImageView) → (t : Topology) → (h : HartState) → (k : HartState)
        → (need : Need) → (x : ℕ) → Does image t h need x k → reg k 0 ≡ reg h 0 }
{}

/// A store writes a byte at least.
pub fn store_has_byte()
    ensures { (image : ImageView) → (t : Topology) → (h : HartState) → (word : WordAddr)
        → (mask : ℕ) → (value : ℕ) → Needs image t h (Store word mask value) → HasByte mask }
{}

/// What is needed of memory is one of its words, and of the lock region a lock word.
pub fn proper()
    ensures { (image : ImageView) → (t : Topology) → (h : HartState) → (need : Need)
        → Needs image t h need → IsProper t need }
{}
