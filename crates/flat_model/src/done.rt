//! What one instruction of a hart did.

use dash_event::StepRecord;
use hart_core::{HartId, Need};

/// An instruction that was done: whose, where it stood, what it needed, and what it did.
#[derive(Clone, Copy, Debug, PartialEq, Eq)]
pub struct Done {
    pub hart: HartId,
    pub pc: u32,
    pub need: Need,
    pub record: StepRecord,
}
