//! How a hart rests.
ghost use Rattle.std.specs.Prelude.{◌≡◌, ℕ, ◌<◌, ◌↔◌, IsTrue, IsFalse};
ghost use Rattle.dash_model.specs.Part.{Part};
ghost use Rattle.unit_rows.specs.Shown.{hart_at};
ghost use Rattle.cluster_unit.specs.Core.{IsAt};
ghost use Rattle.round_run.specs.Ending.{Has, IsStill};
ghost use Rattle.round_run.specs.declared.rest.Rest.TheVariants.{Spent};

use cluster_unit::Core;
use dash_base::{End, Topology};

/// A way in which a hart rests: it trapped, it has spent its budget, or it has sent its lock instruction.
#[derive(Clone, Copy, Debug, PartialEq, Eq)]
pub enum Rest {
    Trap,
    Spent,
    Asked,
}

/// Whether a hart of a cluster rests so.
pub fn rests(rest: Rest, topology: &Topology, core: &Core, hart: u32) -> bool
    requires hart { hart < topology.now.harts }
    requires top { core.now.config.top ≡ topology.now }
    ensures so { IsTrue result → (p : Part) → IsAt core.now p → Has rest topology.now (p.harts (hart_at core.now.config core.now.cluster hart)) }
    ensures not { IsFalse result → (p : Part) → IsAt core.now p → Has rest topology.now (p.harts (hart_at core.now.config core.now.cluster hart)) → ⊥ }
{
    match rest {
        Rest::Trap => matches!(core.hart(hart).end(), End::Trapped { .. }),
        Rest::Spent => has_spent(topology, core, hart),
        Rest::Asked => core.asked(hart),
    }
}

/// Whether a hart has spent its budget, and did not end.
fn has_spent(topology: &Topology, core: &Core, hart: u32) -> bool
    requires hart { hart < topology.now.harts }
    requires top { core.now.config.top ≡ topology.now }
    ensures so { IsTrue result → (p : Part) → IsAt core.now p → Has Spent topology.now (p.harts (hart_at core.now.config core.now.cluster hart)) }
    ensures not { IsFalse result → (p : Part) → IsAt core.now p → Has Spent topology.now (p.harts (hart_at core.now.config core.now.cluster hart)) → ⊥ }
{
    let state = core.hart(hart);
    state.end() == End::Running && state.retired() == topology.budget
}

/// Whether a hart has nothing left to do by itself: it ended, has spent its budget, or waits for the answer
/// to its lock instruction.
pub fn is_still(topology: &Topology, core: &Core, hart: u32) -> bool
    requires hart { hart < topology.now.harts }
    requires top { core.now.config.top ≡ topology.now }
    ensures { IsTrue result → (p : Part) → IsAt core.now p → IsStill topology.now (p.harts (hart_at core.now.config core.now.cluster hart)) }
{
    core.hart(hart).end() != End::Running
        || rests(Rest::Spent, topology, core, hart)
        || rests(Rest::Asked, topology, core, hart)
}
