//! What a message makes its taker send at once.
ghost use Rattle.std.specs.Prelude.{◌≡◌, [], ◌∷◌};

use dash_msg::Sent;
use directory::Burst;

/// One message.
pub fn one(sent: Sent) -> Burst
    ensures { result.items ≡ sent ∷ [] }
{
    let mut burst = Burst::new();
    burst.push(sent);
    burst
}

/// Two messages, in this order.
pub fn two(first: Sent, second: Sent) -> Burst
    ensures { result.items ≡ first ∷ second ∷ [] }
{
    let mut burst = Burst::new();
    burst.push(first);
    burst.push(second);
    burst
}
