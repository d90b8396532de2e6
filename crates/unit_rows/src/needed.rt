//! The lines that a hart needs, found once.
ghost use Rattle.std.specs.Prelude.{◌<◌};
ghost use Rattle.unit_rows.specs.AllNeeds.{AreNeeded};
ghost use Rattle.unit_rows.specs.Shown.{config, shown, AreSized};

use crate::needs::{needed_copy, needed_store, needed_write};
use crate::parts::Parts;
use crate::site::Site;
use dash_base::LineId;

/// The lines that a hart needs: a copy of one for its instruction, to own one for its instruction, and
/// to own one for its oldest store.
#[derive(Clone, Copy, Default)]
pub struct Needed {
    pub copy: Option<LineId>,
    pub write: Option<LineId>,
    pub store: Option<LineId>,
}

/// The lines that a hart needs.
pub fn find_needed(site: &Site, parts: &Parts, hart: u32) -> Needed
    requires sized { AreSized (config site.now) site.now.cluster.0 (shown parts.now) }
    requires hart { hart < site.now.topology.harts }
    ensures { AreNeeded (config site.now) site.now.cluster.0 (shown parts.now) hart result }
{
    let copy = needed_copy(site, parts, hart);
    let write = needed_write(site, parts, hart);
    let store = needed_store(site, parts, hart);
    Needed { copy, write, store }
}
