//! The message that words stand for.
ghost use Rattle.std.specs.Prelude.{◌≡◌};
ghost use Rattle.trace_text.specs.MsgWords.{behind_copy, copy_of, copied_msg_of, sent_for_of, line_msg_of, msg_of};

use crate::values::is_name;
use crate::words::Words;
use dash_base::{Line, LineId};
use dash_msg::Msg;

/// Takes a message. Of words that stand for none it makes some message.
#[tactic(auto, unfolding(crate::specs::MsgWords::msg_of))]
pub fn take_msg(words: &mut Words<'_>) -> Msg
    ensures { result ≡ msg_of words.old }
{
    let name = words.take();
    if is_name(name, "lockask") {
        Msg::LockAsk {
            hart: words.hart(),
            number: words.number(),
            word: words.address(),
            value: words.hex(),
        }
    } else if is_name(name, "unlock") {
        Msg::Unlock {
            hart: words.hart(),
            number: words.number(),
            word: words.address(),
        }
    } else if is_name(name, "lockgrant") {
        Msg::LockGrant { hart: words.hart() }
    } else if is_name(name, "unlockack") {
        Msg::UnlockAck {
            hart: words.hart(),
            old: words.hex(),
        }
    } else {
        take_line_msg(name, words)
    }
}

/// Takes a message about a line, behind its name.
#[tactic(auto, unfolding(crate::specs::MsgWords::line_msg_of))]
fn take_line_msg(name: &[u8], words: &mut Words<'_>) -> Msg
    ensures { result ≡ line_msg_of name.now words.old }
{
    let line = words.line();
    if is_name(name, "read") {
        Msg::Read { line }
    } else if is_name(name, "readex") {
        Msg::ReadEx { line }
    } else if is_name(name, "ack") {
        Msg::Ack { line }
    } else if is_name(name, "transferack") {
        Msg::TransferAck { line }
    } else if is_name(name, "nak") {
        Msg::Nak { line }
    } else {
        take_sent_for(name, line, words)
    }
}

/// Takes what stands behind the line's number: a cluster, or a line's content.
#[tactic(auto, unfolding(crate::specs::MsgWords::sent_for_of))]
fn take_sent_for(name: &[u8], line: LineId, words: &mut Words<'_>) -> Msg
    ensures { result ≡ sent_for_of name.now line words.old }
{
    if is_name(name, "fwdread") {
        Msg::FwdRead {
            line,
            to: words.cluster(),
        }
    } else if is_name(name, "fwdreadex") {
        Msg::FwdReadEx {
            line,
            to: words.cluster(),
        }
    } else if is_name(name, "inval") {
        Msg::Inval {
            line,
            to: words.cluster(),
        }
    } else if is_name(name, "transfer") {
        Msg::Transfer {
            line,
            to: words.cluster(),
        }
    } else {
        take_copied_msg(name, line, words)
    }
}

/// Takes a line's content, and the number that may stand behind it.
#[tactic(auto, unfolding(crate::specs::MsgWords::copied_msg_of))]
fn take_copied_msg(name: &[u8], line: LineId, words: &mut Words<'_>) -> Msg
    ensures { result ≡ copied_msg_of name.now line words.old }
{
    let copy = take_copy(words);
    if is_name(name, "writeback") {
        Msg::WriteBack { line, copy }
    } else if is_name(name, "data") {
        Msg::Data { line, copy }
    } else if is_name(name, "sharingback") {
        let to = words.cluster();
        Msg::SharingBack { line, copy, to }
    } else {
        let count = words.number();
        Msg::DataEx { line, copy, count }
    }
}

/// Takes the content of a line.
#[tactic(auto, unfolding(crate::specs::MsgWords::copy_of))]
fn take_copy(words: &mut Words<'_>) -> Line
    ensures value { result ≡ copy_of words.old }
    ensures rest { words.new ≡ behind_copy words.old }
{
    Line {
        words: [words.hex(), words.hex(), words.hex(), words.hex()],
        version: words.long(),
    }
}
