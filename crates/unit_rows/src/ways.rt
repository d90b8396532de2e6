//! Whether a line is in the way of one that came.
ghost use Rattle.std.specs.Prelude.{◌≡◌, ◌<◌, false, IsTrue};
ghost use Rattle.dash_model.specs.Part.{Part};
ghost use Rattle.dash_model.specs.Settling.{IsInTheWay};
ghost use Rattle.unit_rows.specs.Shown.{config, shown, hart_at, Shows, AreSized};

use crate::parts::Parts;
use crate::site::Site;
use crate::wanted::comes_other;
use dash_base::LineId;

/// Whether a line is in the way of another line with its index, which came to a slot of a hart.
pub fn in_the_way(site: &Site, parts: &Parts, hart: u32, line: LineId) -> bool
    requires sized { AreSized (config site.now) site.now.cluster.0 (shown parts.now) }
    requires hart { hart < site.now.topology.harts }
    ensures yes { IsTrue result → (p : Part) → Shows (config site.now) site.now.cluster.0 (shown parts.now) p → IsInTheWay (config site.now) (hart_at (config site.now) site.now.cluster.0 hart) line.0 p }
    ensures no { result ≡ false → (p : Part) → Shows (config site.now) site.now.cluster.0 (shown parts.now) p → IsInTheWay (config site.now) (hart_at (config site.now) site.now.cluster.0 hart) line.0 p → ⊥ }
{
    parts.slots.keeps_one_slot_a_line();
    comes_other(site, &parts.slots, hart, line)
}
