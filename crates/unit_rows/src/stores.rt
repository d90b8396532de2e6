//! Stores, and SCs that fail.
ghost use Rattle.std.specs.Prelude.{◌≡◌, ◌≢◌, ℕ, ◌<◌, [], false, Some, None, IsTrue, IfSome, IfNone, slice_index_or};
ghost use Rattle.dash_base.specs.declared.id.WordAddr.{WordAddr};
ghost use Rattle.dash_base.specs.declared.need.Need.TheVariants.{Store, Rmw};
ghost use Rattle.dash_base.specs.declared.ops.AmoOp.TheVariants.{Sc};
ghost use Rattle.remote_cache.specs.View.{slot_at};
ghost use Rattle.unit_rows.specs.declared.choice.Choice.TheVariants.{Step};
ghost use Rattle.unit_rows.specs.declared.parts.Local.{Local};
ghost use Rattle.unit_rows.specs.Shown.{shown, config, reserved_by, AreSized};
ghost use Rattle.unit_rows.specs.StepFits.{StoreFits};
ghost use Rattle.unit_rows.specs.Steps.{HartNeeds};
ghost use Rattle.unit_rows.specs.Rows.{DoesChoice, Cannot};

use crate::parts::Parts;
use crate::site::Site;
use dash_base::{AmoOp, Labels, Mask, Need, WordAddr};
use dash_event::{Kind, offer};
use write_buffer::Entry;

/// Whether a hart's buffer has room for a store.
pub fn fits_store(site: &Site, parts: &Parts, hart: u32) -> bool
    requires sized { AreSized (config site.now) site.now.cluster.0 (shown parts.now) }
    requires hart { hart < site.now.topology.harts }
    ensures fits { IsTrue result → StoreFits (config site.now) (shown parts.now) hart }
    ensures idle { result ≡ false → (word : WordAddr) (mask value : ℕ) → HartNeeds (config site.now) (shown parts.now) hart (Store word mask value) → Cannot (config site.now) site.now.cluster.0 (shown parts.now) (Step hart) }
{
    let local = &parts.locals[hart as usize];
    local.buffer.len() < site.topology.buffer
}

/// A store, which then waits in its hart's buffer. `None` where the buffer is full.
pub fn store(
    site: &Site,
    parts: &mut Parts,
    hart: u32,
    word: WordAddr,
    mask: Mask,
    value: u32,
) -> Option<Kind>
    requires sized { AreSized (config site.now) site.now.cluster.0 (shown parts.old) }
    requires hart { hart < site.now.topology.harts }
    requires need { HartNeeds (config site.now) (shown parts.old) hart (Store word mask value) }
    ensures did { IfSome result (λ kind. DoesChoice (config site.now) site.now.cluster.0 (Step hart) kind (shown parts.old) (shown parts.new) []) }
    ensures idle { IfNone result (Cannot (config site.now) site.now.cluster.0 (shown parts.old) (Step hart)) }
    ensures same { IfNone result (shown parts.new ≡ shown parts.old) }
    ensures sized { AreSized (config site.now) site.now.cluster.0 (shown parts.new) }
{
    if !fits_store(site, parts, hart) {
        return None;
    }
    let number = parts.locals[hart as usize].core.retired() + 1;
    let need = Need::Store { word, mask, value };
    let access = offer(site.hart_id(hart), number, &need, 0, false)?;
    let entry = Entry {
        number,
        word,
        mask,
        value,
    };
    let local = &mut parts.locals[hart as usize];
    let _ = local.buffer.try_put(entry);
    local
        .core
        .advance(&site.image, &site.topology, &mut local.front, 0);
    Some(Kind::Store { access })
}

/// An SC of a word that its hart has not reserved: it fails. The hart's front slot is empty.
pub fn sc_fail(
    site: &Site,
    parts: &mut Parts,
    hart: u32,
    word: WordAddr,
    operand: u32,
    labels: Labels,
) -> Option<Kind>
    requires sized { AreSized (config site.now) site.now.cluster.0 (shown parts.old) }
    requires hart { hart < site.now.topology.harts }
    requires need { HartNeeds (config site.now) (shown parts.old) hart (Rmw word Sc operand labels) }
    requires unreserved { (d : Local) → reserved_by (slice_index_or (shown parts.old).locals hart d).reserved ≢ Some word.0 }
    requires front { slot_at parts.old.slots hart ≡ None }
    ensures did { IfSome result (λ kind. DoesChoice (config site.now) site.now.cluster.0 (Step hart) kind (shown parts.old) (shown parts.new) []) }
    ensures idle { IfNone result (Cannot (config site.now) site.now.cluster.0 (shown parts.old) (Step hart)) }
    ensures same { IfNone result (shown parts.new ≡ shown parts.old) }
    ensures sized { AreSized (config site.now) site.now.cluster.0 (shown parts.new) }
{
    let number = parts.locals[hart as usize].core.retired() + 1;
    let need = Need::Rmw {
        word,
        op: AmoOp::Sc,
        operand,
        labels,
    };
    let access = offer(site.hart_id(hart), number, &need, 0, false)?;
    let local = &mut parts.locals[hart as usize];
    local
        .core
        .advance(&site.image, &site.topology, &mut local.front, 1);
    local.reserved = None;
    Some(Kind::ScFail { access })
}
