//! The record of one step of the sequential machine.

use crate::access::Access;
use dash_base::{End, HartId};

/// What a step did: an access, a byte for the console, the end of its hart, or nothing that another
/// hart or the console sees.
#[derive(Clone, Copy, Debug, PartialEq, Eq)]
pub enum StepRecord {
    Access { access: Access },
    Byte { hart: HartId, byte: u8 },
    Stopped { hart: HartId, end: End },
    Plain { hart: HartId },
}
