//! Messages that are taken from their lanes.
ghost use Rattle.std.specs.Prelude.{◌≡◌, ◌<◌, []};
ghost use Rattle.dash_base.specs.declared.id.ClusterId.{ClusterId as Sender};
ghost use Rattle.unit_rows.specs.Shown.{config, shown, AreSized};
ghost use Rattle.unit_rows.specs.LockWords.{AskersGoOn};
ghost use Rattle.unit_rows.specs.Takes.{Takes, IsNoFree, IsQuiet};

use crate::parts::Parts;
use crate::site::Site;
use crate::{forwards, lock_words, replies, served};
use dash_base::ClusterId;
use dash_msg::Msg;
use directory::Burst;
use queue_lock::Waiter;

/// Takes a message from a cluster of the machine, and tells what is sent, in order. A message whose
/// numbers are out of range, or that finds no line, slot, entry or owner that it is for, changes
/// nothing. An Unlock that this home serves is `free`'s to take, and not taken here.
pub fn take(site: &Site, parts: &mut Parts, from: ClusterId, msg: &Msg) -> Burst
    requires sized { AreSized (config site.now) site.now.cluster.0 (shown parts.old) }
    requires asked { AskersGoOn (config site.now) (shown parts.old) }
    requires from { from.0 < site.now.topology.clusters }
    ensures took { IsNoFree (config site.now) site.now.cluster.0 msg.now
        → Takes (config site.now) site.now.cluster.0 from msg.now (shown parts.old) (shown parts.new) result.items }
    ensures sized { AreSized (config site.now) site.now.cluster.0 (shown parts.new) }
{
    match *msg {
        Msg::Read { line }
        | Msg::ReadEx { line }
        | Msg::WriteBack { line, .. }
        | Msg::SharingBack { line, .. }
        | Msg::Transfer { line, .. } => served::serve(site, parts, from, msg, line),
        Msg::FwdRead { line, to } => forwards::read(site, parts, line, to),
        Msg::FwdReadEx { line, to } => forwards::own(site, parts, line, to),
        Msg::Inval { line, to } => forwards::invalidate(site, parts, line, to),
        _ => {
            take_quietly(site, parts, msg);
            Burst::new()
        }
    }
}

/// Takes a message that makes the cluster send nothing at once. Any other changes nothing.
fn take_quietly(site: &Site, parts: &mut Parts, msg: &Msg)
    requires sized { AreSized (config site.now) site.now.cluster.0 (shown parts.old) }
    requires asked { AskersGoOn (config site.now) (shown parts.old) }
    ensures took { (from : Sender) → IsQuiet (config site.now) site.now.cluster.0 msg.now
        → Takes (config site.now) site.now.cluster.0 from msg.now (shown parts.old) (shown parts.new) [] }
    ensures sized { AreSized (config site.now) site.now.cluster.0 (shown parts.new) }
{
    match *msg {
        Msg::LockAsk {
            hart,
            number,
            word,
            value,
        } => {
            let waiter = Waiter {
                hart,
                number,
                value,
            };
            lock_words::ask(site, parts, word, waiter);
        }
        Msg::Data { line, copy } => replies::data(site, parts, line, copy),
        Msg::DataEx { line, copy, count } => replies::data_ex(site, parts, line, copy, count),
        Msg::Ack { line } | Msg::TransferAck { line } => replies::ack(site, parts, line),
        Msg::Nak { line } => replies::nak(site, parts, line),
        Msg::LockGrant { hart } => lock_words::answer(site, parts, hart, 0),
        Msg::UnlockAck { hart, old } => lock_words::answer(site, parts, hart, old),
        _ => {}
    }
}
