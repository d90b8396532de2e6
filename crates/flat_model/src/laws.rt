//! Laws of the definitions. The functions do nothing: their contracts are the laws.
ghost use Rattle.flat_model.specs.OrderLaws.{HappensBeforeGoesForward, HappensBeforeIsTransitive, ReleasesOrder, RacesAreConflicts, RacesAreMutual, LoneConflictsRace, OneHartIsProperlyLabelled};
ghost use Rattle.flat_model.specs.RunLaws.{RunsAreDetermined, RunsMayStop, CompleteRunsEnd, RunsGoOn, RecordsAreOfTheirHart, RunsInOrderAreRuns, RunsInOrderAreOne, DrivenRunsAreInOrder, DrivenRunsAreRuns, DrivenRunsAreOne, HartsAreInRange, RetiredIsWithinBudget, NumbersRise, NumbersCount};
ghost use Rattle.flat_model.specs.ReadLaws.{AccessesHaveTheirValues, WordsAreTheirBytes, CondsMayFail, CondsAreReserved, CondsMaySucceed, ReadsSeeLastWrites, MemoryHasLastWrites, LocksHaveLastWrites, LockAccessesAreChained, AsksReadZero, LocksExclude};

/// What happens before another record stands before it in the list.
pub fn happens_before_goes_forward()
    ensures { HappensBeforeGoesForward }
{}

/// Happens-before is transitive.
pub fn happens_before_is_transitive()
    ensures { HappensBeforeIsTransitive }
{}

/// What stands before a release in its hart happens before what stands after an acquire of the same
/// word in that one's hart.
pub fn releases_order()
    ensures { ReleasesOrder }
{}

/// A race needs two harts, and a byte that both mean and one of them writes.
pub fn races_are_conflicts()
    ensures { RacesAreConflicts }
{}

/// Where one access races with another, the other races with the one.
pub fn races_are_mutual()
    ensures { RacesAreMutual }
{}

/// Two accesses that are alone in a list race, where they conflict and one is ordinary.
pub fn lone_conflicts_race()
    ensures { LoneConflictsRace }
{}

/// Each access has the values of its operation: a load reads and does not write, a store writes
/// and does not read, nor does an SC, and any other operation does both.
pub fn accesses_have_their_values()
    ensures { AccessesHaveTheirValues }
{}

/// A word of 32 bits is all of its bytes.
pub fn words_are_their_bytes()
    ensures { WordsAreTheirBytes }
{}

/// A list of records leads to one state at most.
pub fn runs_are_determined()
    ensures { RunsAreDetermined }
{}

/// A sequential run may stop anywhere.
pub fn runs_may_stop()
    ensures { RunsMayStop }
{}

/// Where each hart has ended, has spent its budget, or waits, no step can be done.
pub fn complete_runs_end()
    ensures { CompleteRunsEnd }
{}

/// A sequential run goes on with any step of the state that it leads to.
pub fn runs_go_on()
    ensures { RunsGoOn }
{}

/// The record of a step is of the hart that does it.
pub fn records_are_of_their_hart()
    ensures { RecordsAreOfTheirHart }
{}

/// A run that takes the harts of a list in order, each doing its next instruction where it can, is a
/// sequential run.
pub fn runs_in_order_are_runs()
    ensures { RunsInOrderAreRuns }
{}

/// There is one such run at most, since an SC in it succeeds wherever it can.
pub fn runs_in_order_are_one()
    ensures { RunsInOrderAreOne }
{}

/// A driven run, which grows at its end, is a run in order, which is read from the front.
pub fn driven_runs_are_in_order()
    ensures { DrivenRunsAreInOrder }
{}

/// A driven run is a sequential run.
pub fn driven_runs_are_runs()
    ensures { DrivenRunsAreRuns }
{}

/// There is one driven run for each order of harts at most.
pub fn driven_runs_are_one()
    ensures { DrivenRunsAreOne }
{}

/// Where an SC can be done, it can fail too.
pub fn conds_may_fail()
    ensures { CondsMayFail }
{}

/// In a sequential run an SC succeeds only after an LR of its hart and word, since which its hart did
/// no other LR or SC, and no other hart wrote the word.
pub fn conds_are_reserved()
    ensures { CondsAreReserved }
{}

/// After such an LR, with no such access since, an SC that can be done can succeed.
pub fn conds_may_succeed()
    ensures { CondsMaySucceed }
{}

/// Each step of a sequential run is of a hart that the machine has.
pub fn harts_are_in_range()
    ensures { HartsAreInRange }
{}

/// In a sequential run no hart retires more than its budget.
pub fn retired_is_within_budget()
    ensures { RetiredIsWithinBudget }
{}

/// In a sequential run the accesses of a hart stand in program order.
pub fn numbers_rise()
    ensures { NumbersRise }
{}

/// In a sequential run the number of an access is its place among its hart's records, from 1.
pub fn numbers_count()
    ensures { NumbersCount }
{}

/// In a sequential run each read gives, byte by byte, what the last write of that byte wrote, or the
/// opening memory.
pub fn reads_see_last_writes()
    ensures { ReadsSeeLastWrites }
{}

/// At the end of a run each byte of memory is what the last write of it wrote, or the opening memory.
pub fn memory_has_last_writes()
    ensures { MemoryHasLastWrites }
{}

/// At the end of a run each lock word has what the last access of it wrote, or 0.
pub fn locks_have_last_writes()
    ensures { LocksHaveLastWrites }
{}

/// In a sequential run each access of a lock word reads what the one before it wrote, and the first
/// reads 0.
pub fn lock_accesses_are_chained()
    ensures { LockAccessesAreChained }
{}

/// In a sequential run an Ask reads 0.
pub fn asks_read_zero()
    ensures { AsksReadZero }
{}

/// In a sequential run an Unlock of a lock word stands between any two Asks of it.
pub fn locks_exclude()
    ensures { LocksExclude }
{}

/// Every image is properly labelled for a machine of one hart.
pub fn one_hart_is_properly_labelled()
    ensures { OneHartIsProperlyLabelled }
{}
