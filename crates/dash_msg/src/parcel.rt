//! Messages on their way.

use crate::msg::Msg;
use dash_base::{ClusterId, LineId};

/// A message with the stamp of the event that sent it.
#[derive(Clone, Copy, Debug, PartialEq, Eq)]
pub struct Parcel {
    pub msg: Msg,
    pub stamp: u64,
}

/// A message with the cluster that it is sent to.
#[derive(Clone, Copy, Debug, PartialEq, Eq)]
pub struct Sent {
    pub to: ClusterId,
    pub msg: Msg,
}

/// What fills the unused places of a bounded list: a refusal of line 0, to cluster 0.
impl Default for Sent {
    ghost use Rattle.std.specs.Prelude.{◌≡◌};
    ghost use Rattle.dash_msg.specs.declared.msg.Msg.TheVariants.{Nak};

    ghost is_default = { λ s. s ≡ record {
      to = record { 0 = 0 };
      msg = Nak (record { 0 = 0 });
    } };

    fn default() -> Self {
        Sent {
            to: ClusterId(0),
            msg: Msg::Nak { line: LineId(0) },
        }
    }
}
