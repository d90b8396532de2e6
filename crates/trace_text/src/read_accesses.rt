//! The access that words stand for.
ghost use Rattle.std.specs.Prelude.{◌≡◌};
ghost use Rattle.trace_text.specs.AccessWords.{seen_of, behind_seen, access_of, behind_access};

use crate::values::{labels_of, op_of};
use crate::words::Words;
use dash_event::{Access, Seen};

/// Takes an access. Of words that stand for none it makes some access.
#[tactic(auto, unfolding(crate::specs::AccessWords::access_of, crate::specs::AccessWords::behind_access))]
pub fn take_access(words: &mut Words<'_>) -> Access
    ensures value { result ≡ access_of words.old }
    ensures rest { words.new ≡ behind_access words.old }
{
    Access {
        hart: words.hart(),
        number: words.number(),
        op: op_of(words.take()),
        labels: labels_of(words.take()),
        word: words.address(),
        mask: words.mask(),
        read: words.content(),
        written: words.content(),
        seen: take_seen(words),
    }
}

/// Takes which content an access was shown.
#[tactic(auto, unfolding(crate::specs::AccessWords::seen_of, crate::specs::AccessWords::behind_seen))]
fn take_seen(words: &mut Words<'_>) -> Seen
    ensures value { result ≡ seen_of words.old }
    ensures rest { words.new ≡ behind_seen words.old }
{
    match words.take() {
        b"line" => Seen::Line(words.long()),
        b"own" => Seen::Own(words.number()),
        b"lock" => Seen::Lock(words.long()),
        _ => Seen::Nothing,
    }
}
