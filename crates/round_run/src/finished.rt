//! What a run leaves.
ghost use Rattle.std.specs.Prelude.{◌≡◌};

use cluster_unit::Unit;
use dash_base::OutOfMemory;
use dash_event::Event;

/// Why a run ended: every hart exited; some hart spent its budget; some hart trapped; some hart waits for
/// a lock word that none will free. Where several are so, a trap comes before a budget, and a budget before
/// a hart that waits.
#[derive(Clone, Copy, Debug, PartialEq, Eq)]
pub enum Cause {
    Exited,
    Budget,
    Trapped,
    Deadlock,
}

/// A run that ended: its log, the units that made it, after how many rounds, which harts wait, by their
/// numbers in the machine, and why it ended.
#[derive(Drop)]
pub struct Finished {
    pub log: Vec<Event>,
    pub units: Vec<Unit>,
    pub rounds: u64,
    pub waits: Vec<bool>,
    pub cause: Cause,
}

/// Why a run did not come to its end.
#[derive(Clone, Copy, Debug, PartialEq, Eq)]
pub enum RunEnd {
    OutOfMemory,
}

impl From<OutOfMemory> for RunEnd {
    fn from(_error: OutOfMemory) -> RunEnd {
        RunEnd::OutOfMemory
    }
}
