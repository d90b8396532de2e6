//! Atomic operations, and SC.
ghost use Rattle.std.specs.Prelude.{◌≡◌, ℕ, ◌<◌, [], false, None, if◌then◌else◌, IfSome, IfNone};
ghost use Rattle.dash_base.specs.declared.line.Line.{Line};
ghost use Rattle.dash_base.specs.declared.need.Need.TheVariants.{Rmw};
ghost use Rattle.unit_rows.specs.declared.choice.Choice.TheVariants.{Step};
ghost use Rattle.unit_rows.specs.AtomicFits.{AtomicFits, HartFails};
ghost use Rattle.unit_rows.specs.LineNeeds.{is_sc};
ghost use Rattle.unit_rows.specs.Shown.{shown, config, AreSized};
ghost use Rattle.unit_rows.specs.StepFits.{EndsAs};
ghost use Rattle.unit_rows.specs.Steps.{HartNeeds};
ghost use Rattle.unit_rows.specs.Rows.{DoesChoice, Cannot};

use crate::held::owns_alone;
use crate::line_words::{word_in, written};
use crate::needs::{fails, is_sc};
use crate::outcome::Outcome;
use crate::parts::Parts;
use crate::site::Site;
use crate::stores::sc_fail;
use dash_base::{AmoOp, Labels, Line, Need, WordAddr};
use dash_event::{Access, Kind, Seen, offer};
use fence_release::may_commit;

/// What an atomic operation of a hart does, or an SC, which fails where its word is not reserved. `None`
/// where the hart can't do it: one that writes needs its hart in state M on a line that is not pending,
/// and no store to the word that waits, and as a release waits for all that the hart stored; an SC that
/// fails needs an empty front slot.
pub fn fits_atomic(
    site: &Site,
    parts: &Parts,
    hart: u32,
    word: WordAddr,
    op: AmoOp,
    labels: Labels,
) -> Option<Outcome>
    requires sized { AreSized (config site.now) site.now.cluster.0 (shown parts.now) }
    requires hart { hart < site.now.topology.harts }
    ensures fits { IfSome result (λ outcome. EndsAs (config site.now) (shown parts.now) hart word op labels outcome) }
    ensures idle { IfNone result ((operand : ℕ) → HartNeeds (config site.now) (shown parts.now) hart (Rmw word op operand labels) → Cannot (config site.now) site.now.cluster.0 (shown parts.now) (Step hart)) }
{
    parts.slots.keeps_one_slot_a_line();
    parts.bus.keeps_one_map();
    let local = &parts.locals[hart as usize];
    if fails(op, local.reserved, word) {
        if parts.slots.get(hart).is_some() {
            return None;
        }
        return Some(Outcome::Fails);
    }
    let copy = writable(site, parts, hart, word, labels)?;
    Some(Outcome::Writes(copy))
}

/// An atomic operation or an SC, which fails where its word is not reserved. `None` where the hart can't
/// do it, as `fits_atomic` says.
pub fn atomic(
    site: &Site,
    parts: &mut Parts,
    hart: u32,
    word: WordAddr,
    op: AmoOp,
    operand: u32,
    labels: Labels,
) -> Option<Kind>
    requires sized { AreSized (config site.now) site.now.cluster.0 (shown parts.old) }
    requires hart { hart < site.now.topology.harts }
    requires need { HartNeeds (config site.now) (shown parts.old) hart (Rmw word op operand labels) }
    ensures did { IfSome result (λ kind. DoesChoice (config site.now) site.now.cluster.0 (Step hart) kind (shown parts.old) (shown parts.new) []) }
    ensures idle { IfNone result (Cannot (config site.now) site.now.cluster.0 (shown parts.old) (Step hart)) }
    ensures same { IfNone result (shown parts.new ≡ shown parts.old) }
    ensures sized { AreSized (config site.now) site.now.cluster.0 (shown parts.new) }
{
    let outcome = fits_atomic(site, parts, hart, word, op, labels)?;
    match outcome {
        Outcome::Fails => sc_fail(site, parts, hart, word, operand, labels),
        Outcome::Writes(copy) => rmw(site, parts, hart, word, op, operand, labels, copy),
    }
}

/// An atomic operation that writes to this copy of its line: what it makes of the word becomes the line's next version, and the
/// hart is answered the whole word that it found, or 0 for an SC.
fn rmw(
    site: &Site,
    parts: &mut Parts,
    hart: u32,
    word: WordAddr,
    op: AmoOp,
    operand: u32,
    labels: Labels,
    copy: Line,
) -> Option<Kind>
    requires sized { AreSized (config site.now) site.now.cluster.0 (shown parts.old) }
    requires hart { hart < site.now.topology.harts }
    requires need { HartNeeds (config site.now) (shown parts.old) hart (Rmw word op operand labels) }
    requires fits { AtomicFits (config site.now) (shown parts.old) hart word labels copy }
    requires reserves { HartFails (shown parts.old) hart op word false }
    ensures did { IfSome result (λ kind. DoesChoice (config site.now) site.now.cluster.0 (Step hart) kind (shown parts.old) (shown parts.new) []) }
    ensures idle { IfNone result (Cannot (config site.now) site.now.cluster.0 (shown parts.old) (Step hart)) }
    ensures same { IfNone result (shown parts.new ≡ shown parts.old) }
    ensures sized { AreSized (config site.now) site.now.cluster.0 (shown parts.new) }
{
    parts.bus.keeps_one_map();
    let number = parts.locals[hart as usize].core.retired() + 1;
    let need = Need::Rmw {
        word,
        op,
        operand,
        labels,
    };
    let content = word_in(site, word, &copy);
    let access = offer(site.hart_id(hart), number, &need, content, true)?;
    let answer = access.read.unwrap_or(0);
    let value = access.written.unwrap_or(0);
    let next = written(site, word, access.mask, value, &copy);
    let line = site.topology.line_of(word);
    let local = &mut parts.locals[hart as usize];
    local
        .core
        .advance(&site.image, &site.topology, &mut local.front, answer);
    local.reserved = reserved_after(op, local.reserved);
    parts.bus.commit(hart, line, next);
    let seen = Seen::Line(copy.version);
    Some(Kind::Rmw {
        access: Access { seen, ..access },
        line,
        version: next.version,
    })
}

/// The copy of a word's line, where a hart may do an atomic operation that writes to the word: the hart
/// is in state M on the line, and free to commit.
fn writable(site: &Site, parts: &Parts, hart: u32, word: WordAddr, labels: Labels) -> Option<Line>
    requires sized { AreSized (config site.now) site.now.cluster.0 (shown parts.now) }
    requires hart { hart < site.now.topology.harts }
    ensures fits { IfSome result (λ copy. AtomicFits (config site.now) (shown parts.now) hart word labels copy) }
    ensures idle { IfNone result ((copy : Line) → AtomicFits (config site.now) (shown parts.now) hart word labels copy → ⊥) }
{
    let local = &parts.locals[hart as usize];
    let line = site.topology.line_of(word);
    if !owns_alone(&parts.bus, hart, line) {
        return None;
    }
    if !may_commit(labels, word, line, hart, &local.buffer, &parts.acks) {
        return None;
    }
    parts.bus.peek(line)
}

/// What a hart has reserved after an atomic operation that wrote: SC clears it.
fn reserved_after(op: AmoOp, old: Option<WordAddr>) -> Option<WordAddr>
    ensures { result ≡ (if is_sc op then None else old) }
{
    if is_sc(op) { None } else { old }
}
