//! Whether a hart got on: retired an instruction, or committed a store.
ghost use Rattle.std.specs.Prelude.{◌≡◌, IsTrue, IsFalse};
ghost use Rattle.round_run.specs.Units.{seen};
ghost use Rattle.round_run.specs.Progress.{is_progress, HasProgress, NoProgress, AreEnds, ArePassed, AreNotPassed};

use cluster_unit::Unit;
use dash_base::End;
use dash_event::{Event, Kind};
use dash_msg::Msg;

/// How long the log of each unit was.
#[derive(Clone, Copy)]
pub struct Marks([usize; 16]);

/// Marks where the logs end.
pub fn ends_of(units: &[Unit]) -> Marks
    ensures { AreEnds (λ u. seen u.core u.turns u.steps u.ahead) units.now result.0 }
{
    let mut lengths = [0; 16];
    for cluster in 0..units.len().min(16) {
        lengths[cluster] = units[cluster].core.log().len();
    }
    Marks(lengths)
}

impl Marks {
    /// Whether some hart got on since.
    pub fn are_passed(&self, units: &[Unit]) -> bool
        ensures passed { IsTrue result → ArePassed (λ u. seen u.core u.turns u.steps u.ahead) self.now.0 units.now }
        ensures not { IsFalse result → AreNotPassed (λ u. seen u.core u.turns u.steps u.ahead) self.now.0 units.now }
    {
        for cluster in 0..units.len().min(16) {
            if has_progress(units[cluster].core.log(), self.0[cluster]) {
                return true;
            }
        }
        false
    }
}

/// Whether a hart got on by an event of a log, from a place on.
fn has_progress(log: &[Event], from: usize) -> bool
    ensures has { IsTrue result → HasProgress from log.now }
    ensures not { IsFalse result → NoProgress from log.now }
{
    for place in from..log.len() {
        if is_progress(&log[place].kind) {
            return true;
        }
    }
    false
}

/// Whether an event retires an instruction, or commits a store.
fn is_progress(kind: &Kind) -> bool
    ensures { result ≡ is_progress kind.now }
{
    match kind {
        Kind::Alu { .. }
        | Kind::Fence { .. }
        | Kind::Hint { .. }
        | Kind::Put { .. }
        | Kind::Load { .. }
        | Kind::Store { .. }
        | Kind::Commit { .. }
        | Kind::Rmw { .. }
        | Kind::ScFail { .. } => true,
        Kind::Stop { end, .. } => matches!(end, End::Exited { .. }),
        Kind::Take { msg, .. } => { matches!(msg, Msg::LockGrant { .. } | Msg::UnlockAck { .. }) }
        _ => false,
    }
}
