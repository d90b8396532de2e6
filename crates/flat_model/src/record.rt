//! The record of a step, and the answer to its hart.
ghost use Rattle.std.specs.Prelude.{◌≡◌};
ghost use Rattle.flat_model.specs.Step.{record_of};
ghost use Rattle.dash_event.specs.Effects.{answer_of};

use dash_event::{Access, StepRecord};
use hart_core::{HartId, Need};

/// The record of a step of a hart: its access, or the byte that it puts, or its end.
pub fn record_of(hart: HartId, need: &Need, access: Option<Access>) -> StepRecord
    ensures { result ≡ record_of hart.0 need.now access }
{
    match access {
        Some(access) => StepRecord::Access { access },
        None => match need {
            Need::Put { byte } => StepRecord::Byte { hart, byte: *byte },
            Need::Stop { end } => StepRecord::Stopped { hart, end: *end },
            _ => StepRecord::Plain { hart },
        },
    }
}

/// What a step answers its hart: what it read; for an SC 0 where it wrote, and 1 where it did not.
pub fn answer_of(did: &StepRecord) -> u32
    ensures { result ≡ answer_of did.now }
{
    match did {
        StepRecord::Access { access } => match (access.read, access.written) {
            (Some(read), _) => read,
            (None, Some(_)) => 0,
            (None, None) => 1,
        },
        _ => 0,
    }
}
