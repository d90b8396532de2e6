//! What a call leaves of a run.
ghost use Rattle.std.specs.Prelude.{◌≡◌, map};
ghost use Rattle.dash_run.specs.Ran.{no_run};

use crate::top::Ended;
use cluster_unit::Unit;
use dash_event::Event;
use std::alloc::Global;

/// The log of a run, the units that made it, and after how many rounds it ended; all of them empty where
/// no run was made.
#[derive(Drop)]
pub struct Run {
    pub log: Vec<Event>,
    pub units: Vec<Unit>,
    pub rounds: u64,
}

impl Run {
    /// No run.
    pub fn none(alloc: Global) -> Run
        ensures { record { log = result.log.items; units = map (λ u. record { core = u.core; turns = u.turns; steps = u.steps; ahead = u.ahead }) result.units.items; rounds = result.rounds } ≡ no_run }
    {
        Run {
            log: Vec::new(alloc),
            units: Vec::new(alloc),
            rounds: 0,
        }
    }

    /// The end of a call that leaves this, with an exit status.
    pub fn ended(self, status: u8) -> Ended
        ensures status { result.status ≡ status }
        ensures log { result.log ≡ self.log }
        ensures units { result.units ≡ self.units }
        ensures rounds { result.rounds ≡ self.rounds }
    {
        let Run { log, units, rounds } = self;
        Ended {
            status,
            log,
            units,
            rounds,
        }
    }
}
