//! Lock words: who asks for them, and to whom they are granted.
ghost use Rattle.std.specs.Prelude.{◌≡◌, [], true, false, IsTrue};
ghost use Rattle.dash_base.specs.declared.id.ClusterId.{ClusterId as Sender};
ghost use Rattle.dash_msg.specs.declared.msg.Msg.{Msg as Message};
ghost use Rattle.dash_msg.specs.declared.msg.Msg.TheVariants.{LockAsk};
ghost use Rattle.dash_model.specs.Ranges.{has_hart};
ghost use Rattle.unit_rows.specs.Shown.{config, shown, AreSized};
ghost use Rattle.queue_lock.specs.View.{is_own, is_ready, lock_at};
ghost use Rattle.unit_rows.specs.LockWords.{own_number, own_hart_number, IsAnswer, AskersGoOn, address, IsAskOf, IsUnlockOf, Granted, Freed};
ghost use Rattle.dash_model.specs.Guard.{frees};
ghost use Rattle.unit_rows.specs.declared.choice.Choice.TheVariants.{Grant};
ghost use Rattle.unit_rows.specs.Rows.{Cannot};
ghost use Rattle.unit_rows.specs.Takes.{Takes};

use crate::parts::Parts;
use crate::site::Site;
use dash_base::{ClusterId, HartId, Need, WordAddr, home_among};
use dash_event::{Access, Kind, Seen, offer};
use dash_msg::{Msg, Sent};
use queue_lock::{Locks, Waiter};

/// Whether the machine has a hart.
pub fn has_hart(site: &Site, hart: HartId) -> bool
    ensures { result ≡ has_hart (config site.now) hart }
{
    hart.0 < site.topology.hart_count()
}

/// The number of the lock word at an address, where there is one whose home is here.
pub fn own_number(site: &Site, word: WordAddr) -> Option<u32>
    ensures { result ≡ own_number (config site.now) site.now.cluster.0 word }
{
    let first = site.topology.base + site.topology.memory;
    if word.0 < first || word.0 >= first + 4 * site.topology.locks || word.0 % 4 != 0 {
        return None;
    }
    let number = (word.0 - first) / 4;
    if home_among(site.topology.clusters, number).0 != site.cluster.0 {
        return None;
    }
    Some(number)
}

/// Takes a LockAsk from any cluster: the hart waits behind the others that asked for the word. One
/// whose hart or word is none, or for which there is no room, changes nothing.
pub fn ask(site: &Site, parts: &mut Parts, word: WordAddr, waiter: Waiter)
    requires { AreSized (config site.now) site.now.cluster.0 (shown parts.old) }
    ensures took { (from : Sender) → Takes (config site.now) site.now.cluster.0 from
        (LockAsk waiter.hart waiter.number word waiter.value) (shown parts.old) (shown parts.new) [] }
    ensures sized { AreSized (config site.now) site.now.cluster.0 (shown parts.new) }
{
    if !has_hart(site, waiter.hart) {
        return;
    }
    let Some(number) = own_number(site, word) else {
        return;
    };
    if !parts.locks.has_room() {
        return;
    }
    parts.locks.ask(number, waiter);
}

/// The number in this cluster of a hart, where it is one of this cluster's: below the harts of a
/// cluster.
fn own_hart(site: &Site, hart: HartId) -> Option<u32>
    ensures { result ≡ own_hart_number (config site.now) site.now.cluster.0 hart }
{
    if !has_hart(site, hart) {
        return None;
    }
    if site.topology.cluster_of(hart).0 != site.cluster.0 {
        return None;
    }
    Some(hart.0 % site.topology.harts)
}

/// Takes a LockGrant, whose answer is 0, or an UnlockAck, whose answer is what the word held: where the
/// hart is one of this cluster, and its lock instruction was sent, it does that.
pub fn answer(site: &Site, parts: &mut Parts, hart: HartId, answer: u32)
    requires sized { AreSized (config site.now) site.now.cluster.0 (shown parts.old) }
    requires asked { AskersGoOn (config site.now) (shown parts.old) }
    ensures took { (from : Sender) (msg : Message) → IsAnswer msg hart answer
        → Takes (config site.now) site.now.cluster.0 from msg (shown parts.old) (shown parts.new) [] }
    ensures sized { AreSized (config site.now) site.now.cluster.0 (shown parts.new) }
{
    let Some(number) = own_hart(site, hart) else {
        return;
    };
    if !parts.locals[number as usize].asked {
        return;
    }
    let local = &mut parts.locals[number as usize];
    local
        .core
        .advance(&site.image, &site.topology, &mut local.front, answer);
    local.asked = false;
}

/// The address of a lock word of this home, by its number.
fn address(site: &Site, locks: &Locks, number: u32) -> WordAddr
    requires sized { locks.now.locks ≡ site.now.topology.locks }
    requires own { is_own locks.now number ≡ true }
    ensures { result.0 ≡ address (config site.now) number }
{
    WordAddr(site.topology.base + site.topology.memory + 4 * number)
}

/// The access of an Ask that is granted, where the word was granted or freed so often.
fn ask_access(waiter: &Waiter, word: WordAddr, count: u64) -> Access
    ensures { IsAskOf waiter.now word count result }
{
    let need = Need::Ask {
        word,
        value: waiter.value,
    };
    let access = offer(waiter.hart, waiter.number, &need, 0, true).unwrap();
    Access {
        seen: Seen::Lock(count),
        ..access
    }
}

/// The access of an Unlock, where the word held this, and was granted or freed so often.
fn unlock_access(hart: HartId, number: u32, word: WordAddr, old: u32, count: u64) -> Access
    ensures { IsUnlockOf hart number word old count result }
{
    let access = offer(hart, number, &Need::Unlock { word }, old, true).unwrap();
    Access {
        seen: Seen::Lock(count),
        ..access
    }
}

/// Whether a lock word may be granted: it is one of this home that is 0 and for which a hart waits.
pub fn fits_grant(site: &Site, parts: &Parts, number: u32) -> bool
    requires { AreSized (config site.now) site.now.cluster.0 (shown parts.now) }
    ensures own { IsTrue result → is_own parts.now.locks number ≡ true }
    ensures ready { IsTrue result → is_ready (lock_at parts.now.locks number) ≡ true }
    ensures idle { result ≡ false → Cannot (config site.now) site.now.cluster.0 (shown parts.now) (Grant number) }
{
    if !parts.locks.is_own(number) {
        return false;
    }
    parts.locks.ready(number)
}

/// Grants a lock word, where it is one of this home that is 0 and for which a hart waits. The answer is
/// what happened, and the message to that hart; `None` where that can't be.
pub fn grant(site: &Site, parts: &mut Parts, number: u32) -> Option<(Kind, Sent)>
    requires { AreSized (config site.now) site.now.cluster.0 (shown parts.old) }
    ensures did { Granted (config site.now) site.now.cluster.0 number (shown parts.old) (shown parts.new) result }
    ensures sized { AreSized (config site.now) site.now.cluster.0 (shown parts.new) }
{
    if !fits_grant(site, parts, number) {
        return None;
    }
    let word = address(site, &parts.locks, number);
    let count = parts.locks.served(number);
    let waiter = parts.locks.grant(number);
    let access = ask_access(&waiter, word, count);
    Some((
        Kind::Grant { access },
        Sent {
            to: site.topology.cluster_of(waiter.hart),
            msg: Msg::LockGrant { hart: waiter.hart },
        },
    ))
}

/// Whether an Unlock is this home's to serve: its hart is one of the machine, and its word a lock word
/// of this home.
pub fn is_free(site: &Site, hart: HartId, word: WordAddr) -> bool
    ensures { result ≡ frees (config site.now) site.now.cluster.0 hart word }
{
    has_hart(site, hart) && own_number(site, word).is_some()
}

/// Takes an Unlock that is this home's to serve, as `is_free` says: the word is 0. The answer is what
/// happened, and the message that tells the hart what the word held.
pub fn free(
    site: &Site,
    parts: &mut Parts,
    from: ClusterId,
    hart: HartId,
    number: u32,
    word: WordAddr,
) -> (Kind, Sent)
    requires sized { AreSized (config site.now) site.now.cluster.0 (shown parts.old) }
    requires serves { frees (config site.now) site.now.cluster.0 hart word ≡ true }
    ensures did { Freed (config site.now) site.now.cluster.0 from hart number word (shown parts.old) (shown parts.new) result }
    ensures sized { AreSized (config site.now) site.now.cluster.0 (shown parts.new) }
{
    let place = own_number(site, word).unwrap();
    let count = parts.locks.served(place);
    let old = parts.locks.free(place);
    let access = unlock_access(hart, number, word, old, count);
    (
        Kind::Free { from, access },
        Sent {
            to: site.topology.cluster_of(hart),
            msg: Msg::UnlockAck { hart, old },
        },
    )
}
