//! Laws of the workload's runs on the machine of caches and messages. The functions do nothing: their
//! contracts are the laws.
ghost use Rattle.workload_runs.specs.Runs.{ContentsAreLastStored, HartsAreDoneInRuns, StatusesAreZero, SummariesAreOfTheTotals};

/// For every seed, in every complete run of the machine on the workload, each hart exited with code 0, having
/// retired 7,507 instructions.
pub fn harts_are_done_in_runs()
    ensures { HartsAreDoneInRuns }
{}

/// So the exit status of such a run is 0.
pub fn statuses_are_zero()
    ensures { StatusesAreZero }
{}

/// In every such run the last store of a counter's word in the log wrote the counter's total, or there was none
/// and the total is 0; and that is what the word holds at the last version of its line.
pub fn contents_are_last_stored()
    ensures { ContentsAreLastStored }
{}

/// The summary of every such run, of what its harts retired and of the counters of its log, is that of the
/// totals, byte for byte.
pub fn summaries_are_of_the_totals()
    ensures { SummariesAreOfTheTotals }
{}
