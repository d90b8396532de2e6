//! What happens in the machine, as records: accesses, steps of the sequential machine, and events.
//!
//! A record says what was done, with all that its line in a report or a log prints. It knows nothing
//! of how a hart, a cache or a cluster came to do it, nor of the text.
#![tactic(auto)]

pub use access::{Access, Op, Seen};
pub use accesses::offer;
pub use event::{Event, Kind};
pub use logged::{EventLog, Logged};
pub use step_record::StepRecord;

mod access;
mod accesses;
mod event;
mod logged;
mod step_record;
