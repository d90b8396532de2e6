//! Requests of other clusters, passed on by a line's home to the cluster that owns it, and
//! invalidations.
ghost use Rattle.std.specs.Prelude.{◌≡◌, ◌&&◌, nat_lt};
ghost use Rattle.dash_base.specs.declared.id.ClusterId.{ClusterId as Sender};
ghost use Rattle.dash_msg.specs.declared.msg.Msg.TheVariants as message;
ghost use Rattle.dash_model.specs.Ranges.{has_line, has_cluster};
ghost use Rattle.unit_rows.specs.Shown.{config, shown, AreSized};
ghost use Rattle.unit_rows.specs.Takes.{Takes};
ghost use Rattle.unit_rows.specs.Giving.{given};

use crate::burst::{one, two};
use crate::parts::Parts;
use crate::site::Site;
use crate::sweep::sweep;
use ack_counter::AckTable;
use dash_base::{ClusterId, Line, LineId, home_among};
use dash_msg::{Msg, Sent};
use directory::Burst;
use snoop_bus::Bus;

/// Whether the machine has a line and a cluster.
fn is_in_range(site: &Site, line: LineId, to: ClusterId) -> bool
    ensures { result ≡ has_line (config site.now) line && has_cluster (config site.now) to }
{
    line.0 < site.topology.line_count() && to.0 < site.topology.clusters
}

/// The copy of an owner that may give its line: one that is not pending.
fn given(bus: &Bus, acks: &AckTable, line: LineId) -> Option<Line>
    ensures { result ≡ given bus.now acks.now line.0 }
{
    if acks.pending(line) {
        return None;
    }
    let _owner = bus.owner(line)?;
    bus.peek(line)
}

/// Takes a FwdRead from any cluster: an owner whose line is not pending gives `to` a copy, tells the
/// home, and is no owner any more. Else `to` is refused.
pub fn read(site: &Site, parts: &mut Parts, line: LineId, to: ClusterId) -> Burst
    requires { AreSized (config site.now) site.now.cluster.0 (shown parts.old) }
    ensures took { (from : Sender) → Takes (config site.now) site.now.cluster.0 from
        (message.FwdRead line to) (shown parts.old) (shown parts.new) result.items }
    ensures sized { AreSized (config site.now) site.now.cluster.0 (shown parts.new) }
{
    if !is_in_range(site, line, to) {
        return Burst::new();
    }
    let Some(copy) = given(&parts.bus, &parts.acks, line) else {
        return one(Sent {
            to,
            msg: Msg::Nak { line },
        });
    };
    parts.bus.keeps_one_map();
    parts.bus.downgrade(line);
    let home = home_among(site.topology.clusters, line.0);
    two(
        Sent {
            to,
            msg: Msg::Data { line, copy },
        },
        Sent {
            to: home,
            msg: Msg::SharingBack { line, copy, to },
        },
    )
}

/// Takes a FwdReadEx from any cluster: an owner whose line is not pending gives `to` the line, tells
/// the home, and has no copy any more. Else `to` is refused.
pub fn own(site: &Site, parts: &mut Parts, line: LineId, to: ClusterId) -> Burst
    requires { AreSized (config site.now) site.now.cluster.0 (shown parts.old) }
    ensures took { (from : Sender) → Takes (config site.now) site.now.cluster.0 from
        (message.FwdReadEx line to) (shown parts.old) (shown parts.new) result.items }
    ensures sized { AreSized (config site.now) site.now.cluster.0 (shown parts.new) }
{
    if !is_in_range(site, line, to) {
        return Burst::new();
    }
    let Some(copy) = given(&parts.bus, &parts.acks, line) else {
        return one(Sent {
            to,
            msg: Msg::Nak { line },
        });
    };
    parts.bus.keeps_one_map();
    let before = parts.bus.holders(line);
    parts.bus.clear_all(line);
    sweep(site, &mut parts.locals, before, 0, line);
    let home = home_among(site.topology.clusters, line.0);
    two(
        Sent {
            to,
            msg: Msg::DataEx {
                line,
                copy,
                count: 1,
            },
        },
        Sent {
            to: home,
            msg: Msg::Transfer { line, to },
        },
    )
}

/// Takes an Inval from any cluster: no copy is left, a slot that reads the line doesn't get it, and
/// `to` is told.
pub fn invalidate(site: &Site, parts: &mut Parts, line: LineId, to: ClusterId) -> Burst
    requires { AreSized (config site.now) site.now.cluster.0 (shown parts.old) }
    ensures took { (from : Sender) → Takes (config site.now) site.now.cluster.0 from
        (message.Inval line to) (shown parts.old) (shown parts.new) result.items }
    ensures sized { AreSized (config site.now) site.now.cluster.0 (shown parts.new) }
{
    if !is_in_range(site, line, to) {
        return Burst::new();
    }
    parts.bus.keeps_one_map();
    parts.slots.keeps_one_slot_a_line();
    let before = parts.bus.holders(line);
    parts.bus.clear_all(line);
    sweep(site, &mut parts.locals, before, 0, line);
    parts.slots.poison(line);
    one(Sent {
        to,
        msg: Msg::Ack { line },
    })
}
