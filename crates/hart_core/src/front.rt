//! A hart's next instruction.

use crate::found::Found;
use dash_base::Need;

/// The next instruction of a hart: what stands at its pc, and what that needs. Of a hart that rests it
/// is the need `Rest` alone that counts.
#[derive(Clone, Copy, Debug, PartialEq, Eq)]
pub struct Front {
    pub(crate) found: Found,
    pub need: Need,
}
