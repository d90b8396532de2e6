//! Instructions that take or give back a lock word: each sends a message to the word's home, once.
ghost use Rattle.std.specs.Prelude.{◌≡◌, ℕ, ◌<◌, [], ◌∷◌, false, IsTrue, IfSome, IfNone};
ghost use Rattle.dash_base.specs.declared.id.WordAddr.{WordAddr};
ghost use Rattle.dash_base.specs.declared.need.Need.TheVariants.{Ask, Unlock};
ghost use Rattle.dash_model.specs.Config.{lock_at, lock_home};
ghost use Rattle.unit_rows.specs.declared.choice.Choice.TheVariants.{Step};
ghost use Rattle.unit_rows.specs.Shown.{shown, config, AreSized};
ghost use Rattle.unit_rows.specs.StepFits.{AskFits, UnlockFits};
ghost use Rattle.unit_rows.specs.Steps.{HartNeeds};
ghost use Rattle.unit_rows.specs.Rows.{DoesChoice, Cannot};

use crate::parts::Parts;
use crate::site::Site;
use dash_base::{ClusterId, WordAddr, home_among};
use dash_event::Kind;
use dash_msg::{Msg, Sent};
use fence_release::may_fence;

/// The home of the lock word at an address.
fn home_of_lock(site: &Site, word: WordAddr) -> ClusterId
    ensures { result.0 ≡ lock_home (config site.now) (lock_at (config site.now) word.0) }
{
    let first = site.topology.base + site.topology.memory;
    home_among(site.topology.clusters, word.0.saturating_sub(first) / 4)
}

/// Whether the message of a hart that takes a lock word may be sent: it was not sent before.
pub fn fits_ask(site: &Site, parts: &Parts, hart: u32) -> bool
    requires sized { AreSized (config site.now) site.now.cluster.0 (shown parts.now) }
    requires hart { hart < site.now.topology.harts }
    ensures fits { IsTrue result → AskFits (shown parts.now) hart }
    ensures idle { result ≡ false → (word : WordAddr) (value : ℕ) → HartNeeds (config site.now) (shown parts.now) hart (Ask word value) → Cannot (config site.now) site.now.cluster.0 (shown parts.now) (Step hart) }
{
    !parts.locals[hart as usize].asked
}

/// An instruction that takes a lock word. `None` where its message was sent before.
pub fn ask(
    site: &Site,
    parts: &mut Parts,
    hart: u32,
    word: WordAddr,
    value: u32,
) -> Option<(Kind, Sent)>
    requires sized { AreSized (config site.now) site.now.cluster.0 (shown parts.old) }
    requires hart { hart < site.now.topology.harts }
    requires need { HartNeeds (config site.now) (shown parts.old) hart (Ask word value) }
    ensures did { IfSome result (λ r. DoesChoice (config site.now) site.now.cluster.0 (Step hart) r.0 (shown parts.old) (shown parts.new) (r.1 ∷ [])) }
    ensures idle { IfNone result (Cannot (config site.now) site.now.cluster.0 (shown parts.old) (Step hart)) }
    ensures same { IfNone result (shown parts.new ≡ shown parts.old) }
    ensures sized { AreSized (config site.now) site.now.cluster.0 (shown parts.new) }
{
    let number = parts.locals[hart as usize].core.retired() + 1;
    if !fits_ask(site, parts, hart) {
        return None;
    }
    let id = site.hart_id(hart);
    let msg = Msg::LockAsk {
        hart: id,
        number,
        word,
        value,
    };
    let to = home_of_lock(site, word);
    parts.locals[hart as usize].asked = true;
    Some((Kind::LockSend { hart: id, msg }, Sent { to, msg }))
}

/// Whether the message of a hart that gives back a lock word may be sent: it was not sent before, and
/// the hart is drained.
pub fn fits_unlock(site: &Site, parts: &Parts, hart: u32) -> bool
    requires sized { AreSized (config site.now) site.now.cluster.0 (shown parts.now) }
    requires hart { hart < site.now.topology.harts }
    ensures fits { IsTrue result → UnlockFits (shown parts.now) hart }
    ensures idle { result ≡ false → (word : WordAddr) → HartNeeds (config site.now) (shown parts.now) hart (Unlock word) → Cannot (config site.now) site.now.cluster.0 (shown parts.now) (Step hart) }
{
    let local = &parts.locals[hart as usize];
    if local.asked {
        return false;
    }
    may_fence(hart, &local.buffer, &parts.acks)
}

/// An instruction that gives back a lock word. `None` where its message was sent before, or the hart
/// is not drained.
pub fn unlock(site: &Site, parts: &mut Parts, hart: u32, word: WordAddr) -> Option<(Kind, Sent)>
    requires sized { AreSized (config site.now) site.now.cluster.0 (shown parts.old) }
    requires hart { hart < site.now.topology.harts }
    requires need { HartNeeds (config site.now) (shown parts.old) hart (Unlock word) }
    ensures did { IfSome result (λ r. DoesChoice (config site.now) site.now.cluster.0 (Step hart) r.0 (shown parts.old) (shown parts.new) (r.1 ∷ [])) }
    ensures idle { IfNone result (Cannot (config site.now) site.now.cluster.0 (shown parts.old) (Step hart)) }
    ensures same { IfNone result (shown parts.new ≡ shown parts.old) }
    ensures sized { AreSized (config site.now) site.now.cluster.0 (shown parts.new) }
{
    let number = parts.locals[hart as usize].core.retired() + 1;
    if !fits_unlock(site, parts, hart) {
        return None;
    }
    let id = site.hart_id(hart);
    let msg = Msg::Unlock {
        hart: id,
        number,
        word,
    };
    let to = home_of_lock(site, word);
    parts.locals[hart as usize].asked = true;
    Some((Kind::LockSend { hart: id, msg }, Sent { to, msg }))
}
