//! What a home sends at once.
ghost use Rattle.std.specs.Prelude.{◌≡◌, [], ◌∷◌};

use arrayvec::ArrayVec;
use dash_base::ClusterId;
use dash_msg::{Msg, Sent};

/// The messages that one message makes a home send, in order: an invalidation to each other cluster,
/// and an answer, at most.
pub type Burst = ArrayVec<Sent, 17>;

/// A burst of one message.
pub fn one(to: ClusterId, msg: Msg) -> Burst
    ensures { result.items ≡ record { to = to; msg = msg } ∷ [] }
{
    let mut burst = Burst::new();
    burst.push(Sent { to, msg });
    burst
}
