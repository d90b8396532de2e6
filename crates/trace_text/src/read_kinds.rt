//! What happened, by the words that stand for it.
ghost use Rattle.std.specs.Prelude.{◌≡◌};
ghost use Rattle.trace_text.specs.EventWords.{end_of, retired_of, asked_of, cached_of, passed_of, kind_of};

use crate::read_accesses::take_access;
use crate::read_messages::take_msg;
use crate::values::{cause_of, is_name};
use crate::words::Words;
use dash_base::End;
use dash_event::Kind;

/// Takes what happened. Of words that stand for nothing it makes some kind.
#[tactic(auto, unfolding(crate::specs::EventWords::kind_of))]
pub fn take_kind(words: &mut Words<'_>) -> Kind
    ensures { result ≡ kind_of words.old }
{
    let name = words.take();
    if is_name(name, "load") {
        Kind::Load {
            access: take_access(words),
            level: words.number(),
        }
    } else if is_name(name, "store") {
        Kind::Store {
            access: take_access(words),
        }
    } else if is_name(name, "rmw") {
        Kind::Rmw {
            access: take_access(words),
            line: words.line(),
            version: words.long(),
        }
    } else if is_name(name, "scfail") {
        Kind::ScFail {
            access: take_access(words),
        }
    } else if is_name(name, "grant") {
        Kind::Grant {
            access: take_access(words),
        }
    } else {
        take_passed(name, words)
    }
}

/// Takes what follows the name of a message sent or taken, of a lock word freed, or another name.
#[tactic(auto, unfolding(crate::specs::EventWords::passed_of))]
fn take_passed(name: &[u8], words: &mut Words<'_>) -> Kind
    ensures { result ≡ passed_of name.now words.old }
{
    if is_name(name, "locksend") {
        Kind::LockSend {
            hart: words.hart(),
            msg: take_msg(words),
        }
    } else if is_name(name, "free") {
        Kind::Free {
            from: words.cluster(),
            access: take_access(words),
        }
    } else if is_name(name, "take") {
        Kind::Take {
            from: words.cluster(),
            msg: take_msg(words),
        }
    } else {
        take_cached(name, words)
    }
}

/// Takes what follows the name of something that happened to a line in a cluster's caches, or another
/// name.
#[tactic(auto, unfolding(crate::specs::EventWords::cached_of))]
fn take_cached(name: &[u8], words: &mut Words<'_>) -> Kind
    ensures { result ≡ cached_of name.now words.old }
{
    if is_name(name, "busread") {
        Kind::BusRead {
            hart: words.hart(),
            line: words.line(),
        }
    } else if is_name(name, "busown") {
        Kind::BusOwn {
            hart: words.hart(),
            line: words.line(),
        }
    } else if is_name(name, "evict") {
        Kind::Evict {
            hart: words.hart(),
            line: words.line(),
        }
    } else if is_name(name, "commit") {
        Kind::Commit {
            hart: words.hart(),
            number: words.number(),
            line: words.line(),
            version: words.long(),
        }
    } else {
        take_asked(name, words)
    }
}

/// Takes what follows the name of something that a request slot did, or another name.
#[tactic(auto, unfolding(crate::specs::EventWords::asked_of))]
fn take_asked(name: &[u8], words: &mut Words<'_>) -> Kind
    ensures { result ≡ asked_of name.now words.old }
{
    if is_name(name, "ask") {
        Kind::Ask {
            slot: words.number(),
            hart: words.hart(),
            line: words.line(),
            own: is_name(words.take(), "own"),
        }
    } else if is_name(name, "again") {
        Kind::Again {
            slot: words.number(),
            line: words.line(),
        }
    } else if is_name(name, "install") {
        Kind::Install {
            slot: words.number(),
            hart: words.hart(),
            line: words.line(),
        }
    } else {
        take_retired(name, words)
    }
}

/// Takes what follows the name of what an instruction without an access did.
#[tactic(auto, unfolding(crate::specs::EventWords::retired_of))]
fn take_retired(name: &[u8], words: &mut Words<'_>) -> Kind
    ensures { result ≡ retired_of name.now words.old }
{
    let hart = words.hart();
    let pc = words.hex();
    if is_name(name, "alu") {
        Kind::Alu { hart, pc }
    } else if is_name(name, "fence") {
        Kind::Fence { hart, pc }
    } else if is_name(name, "hint") {
        Kind::Hint {
            hart,
            pc,
            slot: words.slot(),
        }
    } else if is_name(name, "put") {
        Kind::Put {
            hart,
            pc,
            byte: (words.hex() % 256) as u8,
        }
    } else {
        Kind::Stop {
            hart,
            pc,
            end: take_end(words),
        }
    }
}

/// Takes how a hart ended.
#[tactic(auto, unfolding(crate::specs::EventWords::end_of))]
fn take_end(words: &mut Words<'_>) -> End
    ensures { result ≡ end_of words.old }
{
    let name = words.take();
    if is_name(name, "exit") {
        End::Exited(words.hex())
    } else if is_name(name, "trap") {
        End::Trapped {
            cause: cause_of(words.take()),
            value: words.hex(),
        }
    } else {
        End::Running
    }
}
