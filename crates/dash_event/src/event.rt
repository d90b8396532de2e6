//! What happens in a cluster.
ghost use Rattle.std.specs.Prelude.{◌≡◌, option_to_list, option_copied};
ghost use Rattle.dash_event.specs.Records.{accesses_in};

use crate::access::Access;
use dash_base::{ClusterId, End, HartId, LineId};
use dash_msg::Msg;

/// What happened.
#[derive(Clone, Copy, Debug, PartialEq, Eq)]
pub enum Kind {
    /// An instruction that neither accesses nor orders memory retired.
    Alu {
        hart: HartId,
        pc: u32,
    },
    /// A FENCE retired.
    Fence {
        hart: HartId,
        pc: u32,
    },
    /// A prefetch hint retired. `slot` is the prefetch slot that it opened, if it opened one.
    Hint {
        hart: HartId,
        pc: u32,
        slot: Option<u32>,
    },
    /// A byte was put on the console.
    Put {
        hart: HartId,
        pc: u32,
        byte: u8,
    },
    /// The hart ended, by an exit or a trap.
    Stop {
        hart: HartId,
        pc: u32,
        end: End,
    },
    /// A load or LR retired. `level` is the cache that had the line, or 0 for the write buffer.
    Load {
        access: Access,
        level: u32,
    },
    /// A store retired into its hart's write buffer.
    Store {
        access: Access,
    },
    /// The oldest store of a hart's write buffer, which was its instruction of this number, left the
    /// buffer and became this version of its line.
    Commit {
        hart: HartId,
        number: u32,
        line: LineId,
        version: u64,
    },
    /// An atomic read-modify-write, or an SC that succeeds, committed this version of its line.
    Rmw {
        access: Access,
        line: LineId,
        version: u64,
    },
    /// An SC failed.
    ScFail {
        access: Access,
    },
    /// A hart sent the message of its lock instruction.
    LockSend {
        hart: HartId,
        msg: Msg,
    },
    /// A hart took a copy of the line from another hart of its cluster.
    BusRead {
        hart: HartId,
        line: LineId,
    },
    /// A hart took the line from the owner in its cluster, and owns it.
    BusOwn {
        hart: HartId,
        line: LineId,
    },
    /// A hart gave the line up, to make room.
    Evict {
        hart: HartId,
        line: LineId,
    },
    /// A request slot asked the line's home for a copy, or to own the line.
    Ask {
        slot: u32,
        hart: HartId,
        line: LineId,
        own: bool,
    },
    /// A request slot that was refused asked again.
    Again {
        slot: u32,
        line: LineId,
    },
    /// The line that came to a request slot entered the hart's caches.
    Install {
        slot: u32,
        hart: HartId,
        line: LineId,
    },
    /// A lock word was granted to a hart that had asked for it.
    Grant {
        access: Access,
    },
    /// A lock word was freed. `from` is the cluster of the hart that freed it.
    Free {
        from: ClusterId,
        access: Access,
    },
    /// A message from a cluster was taken from its lane.
    Take {
        from: ClusterId,
        msg: Msg,
    },
}

impl Kind {
    /// The access that was made, where one was.
    pub fn access(&self) -> Option<&Access>
        ensures { option_to_list (option_copied result) ≡ accesses_in self.now }
    {
        match self {
            Kind::Load { access, .. }
            | Kind::Store { access }
            | Kind::Rmw { access, .. }
            | Kind::ScFail { access }
            | Kind::Grant { access }
            | Kind::Free { access, .. } => Some(access),
            _ => None,
        }
    }
}

/// What happened in a cluster, and when: the stamps of a cluster's events rise, and the stamp of an
/// event that takes a message is above that of the event that sent it.
#[derive(Clone, Copy, Debug, PartialEq, Eq)]
pub struct Event {
    pub stamp: u64,
    pub cluster: ClusterId,
    pub kind: Kind,
}
