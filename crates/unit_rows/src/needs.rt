//! Which line a hart needs: for its instruction, to read it or to own it, or for its oldest store.
ghost use Rattle.std.specs.Prelude.{◌≡◌, ◌<◌, IsTrue, false, IfSome};
ghost use Rattle.dash_base.specs.Places.{line_count};
ghost use Rattle.dash_model.specs.Part.{Part};
ghost use Rattle.dash_model.specs.Wants.{NeedsCopy, FrontNeed, StoreNeed, NeedsOwn};
ghost use Rattle.unit_rows.specs.AskFits.{StoresAreOfMemory};
ghost use Rattle.unit_rows.specs.LineNeeds.{load_line, is_sc, is_reserved, fails, write_line, store_line, is_this, IsNeeded};
ghost use Rattle.unit_rows.specs.Shown.{config, shown, hart_at, Shows, AreSized};

use crate::held::{holds, owns_alone};
use crate::parts::Parts;
use crate::site::Site;
use dash_base::{AmoOp, LineId, Need, WordAddr};
use write_buffer::{Buffer, Look};

/// The line that a hart needs a copy of: its instruction loads from it, and the hart is no holder.
pub fn needed_copy(site: &Site, parts: &Parts, hart: u32) -> Option<LineId>
    requires sized { AreSized (config site.now) site.now.cluster.0 (shown parts.now) }
    requires hart { hart < site.now.topology.harts }
    ensures needed { IsNeeded (λ q p. NeedsCopy (config site.now) (hart_at (config site.now) site.now.cluster.0 hart) q p) (config site.now) site.now.cluster.0 (shown parts.now) result }
    ensures inside { IfSome result (λ line. line.0 < line_count site.now.topology) }
{
    let local = &parts.locals[hart as usize];
    let line = load_line(site, &local.buffer, &local.front.need)?;
    if holds(&parts.bus, hart, line) {
        return None;
    }
    Some(line)
}

/// The line that a hart needs to own for its instruction, an atomic operation or an SC whose word is
/// reserved: the hart is not in state M on it.
pub fn needed_write(site: &Site, parts: &Parts, hart: u32) -> Option<LineId>
    requires sized { AreSized (config site.now) site.now.cluster.0 (shown parts.now) }
    requires hart { hart < site.now.topology.harts }
    ensures needed { IsNeeded (λ q p. FrontNeed (config site.now) (hart_at (config site.now) site.now.cluster.0 hart) q p) (config site.now) site.now.cluster.0 (shown parts.now) result }
    ensures inside { IfSome result (λ line. line.0 < line_count site.now.topology) }
{
    parts.bus.keeps_one_map();
    let local = &parts.locals[hart as usize];
    let line = write_line(site, local.reserved, &local.front.need)?;
    if owns_alone(&parts.bus, hart, line) {
        return None;
    }
    Some(line)
}

/// The line that a hart needs to own for its oldest store: the hart is not in state M on it.
pub fn needed_store(site: &Site, parts: &Parts, hart: u32) -> Option<LineId>
    requires sized { AreSized (config site.now) site.now.cluster.0 (shown parts.now) }
    requires hart { hart < site.now.topology.harts }
    ensures needed { IsNeeded (λ q p. StoreNeed (config site.now) (hart_at (config site.now) site.now.cluster.0 hart) q p) (config site.now) site.now.cluster.0 (shown parts.now) result }
    ensures inside { StoresAreOfMemory (config site.now) (shown parts.now) → IfSome result (λ line. line.0 < line_count site.now.topology) }
{
    parts.bus.keeps_one_map();
    let local = &parts.locals[hart as usize];
    let line = store_line(site, &local.buffer)?;
    if owns_alone(&parts.bus, hart, line) {
        return None;
    }
    Some(line)
}

/// Whether a hart needs to own a line, for its instruction or for its oldest store.
pub fn needs_own(site: &Site, parts: &Parts, hart: u32, line: LineId) -> bool
    requires sized { AreSized (config site.now) site.now.cluster.0 (shown parts.now) }
    requires hart { hart < site.now.topology.harts }
    ensures needed { IsTrue result → (p : Part) → Shows (config site.now) site.now.cluster.0 (shown parts.now) p → NeedsOwn (config site.now) (hart_at (config site.now) site.now.cluster.0 hart) line.0 p }
    ensures unneeded { result ≡ false → (p : Part) → Shows (config site.now) site.now.cluster.0 (shown parts.now) p → NeedsOwn (config site.now) (hart_at (config site.now) site.now.cluster.0 hart) line.0 p → ⊥ }
{
    let write = needed_write(site, parts, hart);
    let store = needed_store(site, parts, hart);
    if is_this(write, line) {
        return true;
    }
    is_this(store, line)
}

/// Whether this line was found.
pub fn is_this(found: Option<LineId>, line: LineId) -> bool
    ensures { result ≡ is_this found line.0 }
{
    match found {
        Some(other) => other.0 == line.0,
        None => false,
    }
}

/// The line that an instruction loads from, where no store to the word waits.
fn load_line(site: &Site, buffer: &Buffer, need: &Need) -> Option<LineId>
    ensures { result ≡ load_line (config site.now) buffer.now.items need.now }
{
    let Need::Load { word, mask, .. } = need else {
        return None;
    };
    match buffer.look(*word, *mask) {
        Look::None => Some(site.topology.line_of(*word)),
        Look::Hit { .. } | Look::Wait => None,
    }
}

/// The line that an instruction writes to at once: of an SC, where its word is reserved.
fn write_line(site: &Site, reserved: Option<WordAddr>, need: &Need) -> Option<LineId>
    ensures { result ≡ write_line (config site.now) reserved need.now }
{
    let Need::Rmw { word, op, .. } = need else {
        return None;
    };
    if fails(*op, reserved, *word) {
        return None;
    }
    Some(site.topology.line_of(*word))
}

/// Whether an operation is an SC whose word is not reserved, which fails.
pub fn fails(op: AmoOp, reserved: Option<WordAddr>, word: WordAddr) -> bool
    ensures { result ≡ fails op reserved word }
{
    is_sc(op) && !is_reserved(reserved, word)
}

/// Whether an operation is SC.
pub fn is_sc(op: AmoOp) -> bool
    ensures { result ≡ is_sc op }
{
    matches!(op, AmoOp::Sc)
}

/// Whether this word is reserved.
fn is_reserved(reserved: Option<WordAddr>, word: WordAddr) -> bool
    ensures { result ≡ is_reserved reserved word }
{
    match reserved {
        Some(held) => held.0 == word.0,
        None => false,
    }
}

/// The line of the oldest store.
fn store_line(site: &Site, buffer: &Buffer) -> Option<LineId>
    ensures { result ≡ store_line (config site.now) buffer.now.items }
{
    let oldest = buffer.head()?;
    Some(site.topology.line_of(oldest.word))
}
