//! A hart's next instruction.
ghost use Rattle.std.specs.Prelude.{◌≡◌, ◌<◌, false, IsTrue, IfSome, IfNone, option_to_list};
ghost use Rattle.unit_rows.specs.declared.choice.Choice.TheVariants.{Step};
ghost use Rattle.unit_rows.specs.Rows.{DoesChoice, Cannot};
ghost use Rattle.unit_rows.specs.Shown.{config, shown, AreSized};
ghost use Rattle.cluster_unit.specs.Enabling.{Can};

use crate::answers::{sending, unsent};
use dash_base::Need;
use dash_event::Kind;
use dash_msg::Sent;
use unit_rows::{
    Parts, Site, alu, ask, atomic, fence, fits_ask, fits_atomic, fits_fence, fits_load, fits_store,
    fits_unlock, hint, load, put, stop, store, unlock,
};

/// Whether a hart's next instruction can retire or, of one on a lock word, be sent.
pub fn fits_step(site: &Site, parts: &Parts, hart: u32) -> bool
    requires sized { AreSized (config site.now) site.now.cluster.0 (shown parts.now) }
    requires hart { hart < site.now.topology.harts }
    ensures yes { IsTrue result → Can (config site.now) site.now.cluster.0 (shown parts.now) (Step hart) }
    ensures no { result ≡ false → Cannot (config site.now) site.now.cluster.0 (shown parts.now) (Step hart) }
{
    parts.bus.keeps_one_map();
    parts.slots.keeps_one_slot_a_line();
    let local = &parts.locals[hart as usize];
    match local.front.need {
        Need::Rest => false,
        Need::Alu => true,
        Need::Fence { waits } => fits_fence(site, parts, hart, waits),
        Need::Hint { .. } => true,
        Need::Put { .. } => true,
        Need::Stop { .. } => true,
        Need::Load {
            word,
            mask,
            reserve,
            ..
        } => fits_load(site, parts, hart, word, mask, reserve).is_some(),
        Need::Store { .. } => fits_store(site, parts, hart),
        Need::Rmw {
            word,
            op,
            labels,
            ..
        } => fits_atomic(site, parts, hart, word, op, labels).is_some(),
        Need::Ask { .. } => fits_ask(site, parts, hart),
        Need::Unlock { .. } => fits_unlock(site, parts, hart),
    }
}

/// A hart does its next instruction. `None` where it has none, or must wait.
pub fn step(site: &Site, parts: &mut Parts, hart: u32) -> Option<(Kind, Option<Sent>)>
    requires sized { AreSized (config site.now) site.now.cluster.0 (shown parts.old) }
    requires hart { hart < site.now.topology.harts }
    ensures did { IfSome result (λ done. DoesChoice (config site.now) site.now.cluster.0 (Step hart) done.0 (shown parts.old) (shown parts.new) (option_to_list done.1)) }
    ensures idle { IfNone result (Cannot (config site.now) site.now.cluster.0 (shown parts.old) (Step hart)) }
    ensures unchanged { IfNone result (shown parts.new ≡ shown parts.old) }
    ensures sized { AreSized (config site.now) site.now.cluster.0 (shown parts.new) }
{
    let local = &parts.locals[hart as usize];
    let need = local.front.need;
    match need {
        Need::Rest => None,
        Need::Alu => Some((alu(site, parts, hart), None)),
        Need::Fence { waits } => unsent(fence(site, parts, hart, waits)),
        Need::Hint { kind, address } => Some(hint(site, parts, hart, kind, address)),
        Need::Put { byte } => Some((put(site, parts, hart, byte), None)),
        Need::Stop { end } => Some((stop(site, parts, hart, end), None)),
        Need::Load {
            word,
            mask,
            labels,
            reserve,
        } => unsent(load(site, parts, hart, word, mask, labels, reserve)),
        Need::Store { word, mask, value } => unsent(store(site, parts, hart, word, mask, value)),
        Need::Rmw {
            word,
            op,
            operand,
            labels,
        } => unsent(atomic(site, parts, hart, word, op, operand, labels)),
        Need::Ask { word, value } => sending(ask(site, parts, hart, word, value)),
        Need::Unlock { word } => sending(unlock(site, parts, hart, word)),
    }
}
