//! Instructions that access no word of memory.
ghost use Rattle.std.specs.Prelude.{◌≡◌, ◌<◌, ◌||◌, false, not, [], IsTrue, IfSome, IfNone};
ghost use Rattle.dash_base.specs.declared.need.Need.TheVariants.{Alu, Put, Stop, Fence};
ghost use Rattle.fence_release.specs.Conditions.{is_drained};
ghost use Rattle.unit_rows.specs.declared.choice.Choice.TheVariants.{Step};
ghost use Rattle.unit_rows.specs.Shown.{shown, config, AreSized};
ghost use Rattle.unit_rows.specs.StepFits.{FenceFits};
ghost use Rattle.unit_rows.specs.Steps.{HartNeeds, HartGoes, Retired};
ghost use Rattle.unit_rows.specs.Rows.{DoesChoice, Cannot};

use crate::parts::Parts;
use crate::site::Site;
use ack_counter::AckTable;
use dash_base::End;
use dash_event::Kind;
use fence_release::may_fence;
use write_buffer::Buffer;

/// A hart does its next instruction, which accesses no word. Tells the address at which it stood.
pub fn retire(site: &Site, parts: &mut Parts, hart: u32) -> u32
    requires sized { AreSized (config site.now) site.now.cluster.0 (shown parts.old) }
    requires hart { hart < site.now.topology.harts }
    requires goes { HartGoes (config site.now) (shown parts.old) hart }
    ensures retired { Retired (config site.now) (shown parts.old) (shown parts.new) hart 0 result }
    ensures sized { AreSized (config site.now) site.now.cluster.0 (shown parts.new) }
{
    let local = &mut parts.locals[hart as usize];
    let pc = local.core.pc();
    local
        .core
        .advance(&site.image, &site.topology, &mut local.front, 0);
    pc
}

/// An instruction that neither accesses nor orders memory.
pub fn alu(site: &Site, parts: &mut Parts, hart: u32) -> Kind
    requires sized { AreSized (config site.now) site.now.cluster.0 (shown parts.old) }
    requires hart { hart < site.now.topology.harts }
    requires need { HartNeeds (config site.now) (shown parts.old) hart Alu }
    ensures did { DoesChoice (config site.now) site.now.cluster.0 (Step hart) result (shown parts.old) (shown parts.new) [] }
    ensures sized { AreSized (config site.now) site.now.cluster.0 (shown parts.new) }
{
    let pc = retire(site, parts, hart);
    Kind::Alu {
        hart: site.hart_id(hart),
        pc,
    }
}

/// A byte for the console.
pub fn put(site: &Site, parts: &mut Parts, hart: u32, byte: u8) -> Kind
    requires sized { AreSized (config site.now) site.now.cluster.0 (shown parts.old) }
    requires hart { hart < site.now.topology.harts }
    requires need { HartNeeds (config site.now) (shown parts.old) hart (Put byte) }
    ensures did { DoesChoice (config site.now) site.now.cluster.0 (Step hart) result (shown parts.old) (shown parts.new) [] }
    ensures sized { AreSized (config site.now) site.now.cluster.0 (shown parts.new) }
{
    let pc = retire(site, parts, hart);
    Kind::Put {
        hart: site.hart_id(hart),
        pc,
        byte,
    }
}

/// The end of a hart.
pub fn stop(site: &Site, parts: &mut Parts, hart: u32, end: End) -> Kind
    requires sized { AreSized (config site.now) site.now.cluster.0 (shown parts.old) }
    requires hart { hart < site.now.topology.harts }
    requires need { HartNeeds (config site.now) (shown parts.old) hart (Stop end) }
    ensures did { DoesChoice (config site.now) site.now.cluster.0 (Step hart) result (shown parts.old) (shown parts.new) [] }
    ensures sized { AreSized (config site.now) site.now.cluster.0 (shown parts.new) }
{
    let pc = retire(site, parts, hart);
    Kind::Stop {
        hart: site.hart_id(hart),
        pc,
        end,
    }
}

/// Whether a fence may retire, of the hart with this number and this buffer: it does not wait, or no
/// store of the hart waits and no acknowledgement is owed to it.
fn passes(waits: bool, hart: u32, buffer: &Buffer, acks: &AckTable) -> bool
    requires { hart < 4 }
    ensures { result ≡ (not waits || is_drained hart buffer.now acks.now) }
{
    !waits || may_fence(hart, buffer, acks)
}

/// Whether a fence of a hart may retire.
pub fn fits_fence(site: &Site, parts: &Parts, hart: u32, waits: bool) -> bool
    requires sized { AreSized (config site.now) site.now.cluster.0 (shown parts.now) }
    requires hart { hart < site.now.topology.harts }
    ensures fits { IsTrue result → FenceFits (shown parts.now) hart waits }
    ensures idle { result ≡ false → HartNeeds (config site.now) (shown parts.now) hart (Fence waits) → Cannot (config site.now) site.now.cluster.0 (shown parts.now) (Step hart) }
{
    let local = &parts.locals[hart as usize];
    passes(waits, hart, &local.buffer, &parts.acks)
}

/// A fence. `None` where it still waits.
pub fn fence(site: &Site, parts: &mut Parts, hart: u32, waits: bool) -> Option<Kind>
    requires sized { AreSized (config site.now) site.now.cluster.0 (shown parts.old) }
    requires hart { hart < site.now.topology.harts }
    requires need { HartNeeds (config site.now) (shown parts.old) hart (Fence waits) }
    ensures did { IfSome result (λ kind. DoesChoice (config site.now) site.now.cluster.0 (Step hart) kind (shown parts.old) (shown parts.new) []) }
    ensures idle { IfNone result (Cannot (config site.now) site.now.cluster.0 (shown parts.old) (Step hart)) }
    ensures same { IfNone result (shown parts.new ≡ shown parts.old) }
    ensures sized { AreSized (config site.now) site.now.cluster.0 (shown parts.new) }
{
    if !fits_fence(site, parts, hart, waits) {
        return None;
    }
    let pc = retire(site, parts, hart);
    Some(Kind::Fence {
        hart: site.hart_id(hart),
        pc,
    })
}
