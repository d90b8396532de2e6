//! What a row answers, beside the message that it sends.
ghost use Rattle.std.specs.Prelude.{◌≡◌};
ghost use Rattle.cluster_unit.specs.Acting.{unsent, sending};

use dash_event::Kind;
use dash_msg::Sent;

/// What happened, without a message.
pub fn unsent(kind: Option<Kind>) -> Option<(Kind, Option<Sent>)>
    ensures { result ≡ unsent kind }
{
    Some((kind?, None))
}

/// What happened, with a message.
pub fn sending(done: Option<(Kind, Sent)>) -> Option<(Kind, Option<Sent>)>
    ensures { result ≡ sending done }
{
    let (kind, sent) = done?;
    Some((kind, Some(sent)))
}
