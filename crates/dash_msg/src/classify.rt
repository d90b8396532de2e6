//! Which class a message is of.
ghost use Rattle.std.specs.Prelude.{◌≡◌};
ghost use Rattle.dash_msg.specs.Classes.{class_of};

use crate::classes::Class;
use crate::msg::Msg;

/// The class of a message: what answers a request is a reply, and all else is a request, also what an
/// owner or the home passes on.
pub fn class(msg: &Msg) -> Class
    ensures { result ≡ class_of msg.now }
{
    match msg {
        Msg::Read { .. }
        | Msg::ReadEx { .. }
        | Msg::FwdRead { .. }
        | Msg::FwdReadEx { .. }
        | Msg::Inval { .. }
        | Msg::WriteBack { .. }
        | Msg::SharingBack { .. }
        | Msg::Transfer { .. }
        | Msg::LockAsk { .. }
        | Msg::Unlock { .. } => Class::Request,
        Msg::Data { .. }
        | Msg::DataEx { .. }
        | Msg::Ack { .. }
        | Msg::TransferAck { .. }
        | Msg::Nak { .. }
        | Msg::LockGrant { .. }
        | Msg::UnlockAck { .. } => Class::Reply,
    }
}
