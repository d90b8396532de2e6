//! Messages that are taken.
ghost use Rattle.std.specs.Prelude.{◌≡◌, ◌<◌, ◌≤◌, true, length, IfSome, IfNone};
ghost use Rattle.dash_msg.specs.declared.msg.Msg.TheVariants.{Unlock};
ghost use Rattle.dash_model.specs.Guard.{frees};
ghost use Rattle.unit_rows.specs.LockWords.{AskersGoOn};
ghost use Rattle.unit_rows.specs.Shown.{config, shown, AreSized};
ghost use Rattle.unit_rows.specs.Takes.{IsNoFree};
ghost use Rattle.cluster_unit.specs.Messages.{Took};

use dash_base::{ClusterId, HartId, WordAddr};
use dash_event::Kind;
use dash_msg::Msg;
use directory::Burst;
use unit_rows::{Parts, Site, free, is_free, take};

/// Takes a message from a cluster of the machine: what happened, and what is sent, in order. An Unlock
/// that this home serves frees its lock word.
pub fn take_message(site: &Site, parts: &mut Parts, from: ClusterId, msg: &Msg) -> (Kind, Burst)
    requires sized { AreSized (config site.now) site.now.cluster.0 (shown parts.old) }
    requires asked { AskersGoOn (config site.now) (shown parts.old) }
    requires from { from.0 < site.now.topology.clusters }
    ensures took { Took (config site.now) site.now.cluster.0 from msg.now (shown parts.old) (shown parts.new) result.0 result.1.items }
    ensures sized { AreSized (config site.now) site.now.cluster.0 (shown parts.new) }
    ensures few { length result.1.items ≤ 17 }
{
    if let Some(unlock) = served_unlock(site, msg) {
        let (kind, sent) = free(site, parts, from, unlock.hart, unlock.number, unlock.word);
        let mut burst = Burst::new();
        burst.push(sent);
        return (kind, burst);
    }
    let burst = take(site, parts, from, msg);
    (Kind::Take { from, msg: *msg }, burst)
}

/// What an Unlock says.
#[derive(Clone, Copy)]
struct Unlocking {
    hart: HartId,
    number: u32,
    word: WordAddr,
}

/// The Unlock that a message is, where it is this home's to serve.
fn served_unlock(site: &Site, msg: &Msg) -> Option<Unlocking>
    ensures unlock { IfSome result (λ u. (msg.now ≡ Unlock u.hart u.number u.word) × (frees (config site.now) site.now.cluster.0 u.hart u.word ≡ true)) }
    ensures other { IfNone result (IsNoFree (config site.now) site.now.cluster.0 msg.now) }
{
    let Msg::Unlock { hart, number, word } = *msg else {
        return None;
    };
    if !is_free(site, hart, word) {
        return None;
    }
    Some(Unlocking { hart, number, word })
}
