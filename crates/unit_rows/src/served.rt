//! Messages that a home serves: requests for its lines, and what owners tell of them.
ghost use Rattle.std.specs.Prelude.{◌≡◌, ◌<◌, Some};
ghost use Rattle.directory.specs.View.{line_of};
ghost use Rattle.unit_rows.specs.Shown.{config, shown, AreSized};
ghost use Rattle.unit_rows.specs.Takes.{Takes};

use crate::parts::Parts;
use crate::site::Site;
use dash_base::{ClusterId, LineId};
use dash_msg::Msg;
use directory::Burst;

/// Takes a message of a line from a cluster of the machine: a Read, ReadEx, WriteBack, SharingBack or
/// Transfer. The answer is what is sent, in order.
pub fn serve(site: &Site, parts: &mut Parts, from: ClusterId, msg: &Msg, line: LineId) -> Burst
    requires sized { AreSized (config site.now) site.now.cluster.0 (shown parts.old) }
    requires from { from.0 < site.now.topology.clusters }
    requires line { line_of msg.now ≡ Some line }
    ensures took { Takes (config site.now) site.now.cluster.0 from msg.now (shown parts.old) (shown parts.new) result.items }
    ensures sized { AreSized (config site.now) site.now.cluster.0 (shown parts.new) }
{
    if !parts.home.serves(from, msg) {
        return Burst::new();
    }
    parts.home.serve(from, msg)
}
