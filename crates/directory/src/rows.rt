//! What each message to a home makes of its line, and what the home sends.
ghost use Rattle.std.specs.Prelude.{◌≡◌, ◌<◌, ◌≤◌, ◌++◌, ◌∷◌, [], length};
ghost use Rattle.dash_msg.specs.declared.msg.Msg.TheVariants.{DataEx};
ghost use Rattle.directory.specs.Rows.{Served, read_row, read_ex_row, write_back_row, sharing_back_row, transfer_row, served, invalidations, is_owner, named};

use crate::burst::{Burst, one};
use crate::entry::{EntryState, is_sharer, only, with_sharer};
use crate::home_line::HomeLine;
use dash_base::{ClusterId, Line, LineId};
use dash_msg::{Msg, Sent};

/// Serves a message from a cluster, which is of a line that is kept so. Any message that is no home's
/// to serve changes nothing.
pub fn serve(clusters: u32, from: ClusterId, msg: &Msg, kept: &mut HomeLine) -> Burst
    requires clusters { clusters ≤ 16 }
    requires from { from.0 < clusters }
    requires named { (named from msg.now).0 < clusters }
    ensures kept { kept.new ≡ (served clusters from msg.now kept.old).kept }
    ensures sent { result.items ≡ (served clusters from msg.now kept.old).sent }
{
    match msg {
        Msg::Read { line } => read(*line, from, kept),
        Msg::ReadEx { line } => read_ex(clusters, *line, from, kept),
        Msg::WriteBack { copy, .. } => write_back(from, *copy, kept),
        Msg::SharingBack { copy, to, .. } => sharing_back(from, *copy, *to, kept),
        Msg::Transfer { line, to } => transfer(*line, from, *to, kept),
        _ => Burst::new(),
    }
}

/// A cluster asks for a copy. It becomes a sharer, or the owner is to answer.
fn read(line: LineId, from: ClusterId, kept: &mut HomeLine) -> Burst
    requires { from.0 < 64 }
    ensures kept { kept.new ≡ (read_row line from kept.old.entry kept.old).kept }
    ensures sent { result.items ≡ (read_row line from kept.old.entry kept.old).sent }
{
    let copy = kept.content;
    let entry = kept.entry;
    match entry {
        EntryState::Uncached => {
            kept.entry = EntryState::Shared(only(from));
            one(from, Msg::Data { line, copy })
        }
        EntryState::Shared(sharers) => {
            kept.entry = EntryState::Shared(with_sharer(sharers, from));
            one(from, Msg::Data { line, copy })
        }
        EntryState::Dirty(owner) => one(owner, Msg::FwdRead { line, to: from }),
    }
}

/// A cluster asks to own the line. It becomes the owner, and the sharers are to acknowledge to it; or
/// the owner is to answer.
fn read_ex(clusters: u32, line: LineId, from: ClusterId, kept: &mut HomeLine) -> Burst
    requires { clusters ≤ 16 }
    ensures kept { kept.new ≡ (read_ex_row clusters line from kept.old.entry kept.old).kept }
    ensures sent { result.items ≡ (read_ex_row clusters line from kept.old.entry kept.old).sent }
{
    let copy = kept.content;
    let entry = kept.entry;
    match entry {
        EntryState::Uncached => {
            kept.entry = EntryState::Dirty(from);
            one(
                from,
                Msg::DataEx {
                    line,
                    copy,
                    count: 0,
                },
            )
        }
        EntryState::Shared(sharers) => {
            kept.entry = EntryState::Dirty(from);
            let mut burst = invalidations(clusters, line, from, sharers);
            let count = burst.len() as u32;
            burst.push(Sent {
                to: from,
                msg: Msg::DataEx { line, copy, count },
            });
            burst
        }
        EntryState::Dirty(owner) => one(owner, Msg::FwdReadEx { line, to: from }),
    }
}

/// An invalidation to each sharer but one cluster, which becomes the owner.
fn invalidations(clusters: u32, line: LineId, owner: ClusterId, sharers: u64) -> Burst
    requires { clusters ≤ 16 }
    ensures items { result.items ≡ invalidations clusters line owner sharers }
    ensures room { length result.items ≤ 16 }
{
    let mut burst = Burst::new();
    for cluster in 0..clusters {
        if cluster != owner.0 && is_sharer(sharers, cluster) {
            burst.push(Sent {
                to: ClusterId(cluster),
                msg: Msg::Inval { line, to: owner },
            });
        }
    }
    burst
}

/// The owner gave the line up.
fn write_back(from: ClusterId, copy: Line, kept: &mut HomeLine) -> Burst
    ensures kept { kept.new ≡ (write_back_row from copy kept.old.entry kept.old).kept }
    ensures sent { result.items ≡ (write_back_row from copy kept.old.entry kept.old).sent }
{
    if is_owner(kept.entry, from) {
        *kept = HomeLine {
            entry: EntryState::Uncached,
            content: copy,
        };
    }
    Burst::new()
}

/// The owner gave another cluster a copy, and is a sharer beside it.
fn sharing_back(from: ClusterId, copy: Line, to: ClusterId, kept: &mut HomeLine) -> Burst
    requires from { from.0 < 64 }
    requires to { to.0 < 64 }
    ensures kept { kept.new ≡ (sharing_back_row from copy to kept.old.entry kept.old).kept }
    ensures sent { result.items ≡ (sharing_back_row from copy to kept.old.entry kept.old).sent }
{
    if is_owner(kept.entry, from) {
        *kept = HomeLine {
            entry: EntryState::Shared(with_sharer(only(from), to)),
            content: copy,
        };
    }
    Burst::new()
}

/// The owner gave the line to another cluster, which is told that the home knows of it.
fn transfer(line: LineId, from: ClusterId, to: ClusterId, kept: &mut HomeLine) -> Burst
    ensures kept { kept.new ≡ (transfer_row line from to kept.old.entry kept.old).kept }
    ensures sent { result.items ≡ (transfer_row line from to kept.old.entry kept.old).sent }
{
    if is_owner(kept.entry, from) {
        kept.entry = EntryState::Dirty(to);
        one(to, Msg::TransferAck { line })
    } else {
        Burst::new()
    }
}

/// Whether an entry says that the cluster owns the line.
fn is_owner(entry: EntryState, cluster: ClusterId) -> bool
    ensures { result ≡ is_owner entry cluster }
{
    match entry {
        EntryState::Dirty(owner) => owner == cluster,
        EntryState::Uncached | EntryState::Shared(_) => false,
    }
}
