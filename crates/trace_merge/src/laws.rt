//! Laws of logs. The functions do nothing: their contracts are the laws.
ghost use Rattle.trace_merge.specs.OrderLaws.{CommitOrder, ConsoleIsTheRuns, OneHartIsInOrder, RunsAreSequential};
ghost use Rattle.trace_merge.specs.MergedLogs.{MergedLogsAreRuns};
ghost use Rattle.trace_merge.specs.Settled.{MergesBegin, NothingStarts, SettledPartsStay};
ghost use Rattle.trace_merge.specs.RunEnds.{CompleteRunsAreComplete};
ghost use Rattle.trace_merge.specs.WrittenLogs.{ForwardingIsAdmissible, MessageIsAdmissible, MessageIsProperlyLabelled, MessageIsInOrder};

/// Where no sequential run of an image has a data race, the records of every admissible log, each at its
/// order point, are a sequential run within the budgets. A law of this kind is known as DRF-SC: programs
/// that are free of data races see sequential consistency.
pub fn commit_order()
    ensures { CommitOrder }
{}

/// Where an image is properly labelled for a topology, every run of the machine of caches, messages and
/// write buffers has its records, each at its order point, in the order of one sequentially consistent
/// run within the budgets, value for value.
pub fn runs_are_sequential()
    ensures { RunsAreSequential }
{}

/// Where an image is properly labelled for a topology, the records of every complete run of the machine are a
/// complete sequential run: in it too each hart has ended, has spent its budget, or waits for a lock word that
/// is not 0. At its end each hart and each lock word is as in the machine, each byte of memory is what the last
/// write of it in the log wrote, or the opening one, and is that of its line's last version; and the console
/// is that of the log.
pub fn complete_runs_are_complete()
    ensures { CompleteRunsAreComplete }
{}

/// On a machine of one hart the records of every admissible log are a sequential run, whatever the image.
pub fn one_hart_is_in_order()
    ensures { OneHartIsInOrder }
{}

/// A run of the records of a log leaves the console of the log.
pub fn console_is_the_runs()
    ensures { ConsoleIsTheRuns }
{}

/// Where clusters run by themselves, each takes from its lanes what the others sent, and stamps stay
/// below the greatest one, their logs can be merged, and what `merge` makes of them is a run of the
/// machine. It leaves each cluster's part as its own run did, and each lane with what was not taken.
pub fn merged_logs_are_runs()
    ensures { MergedLogsAreRuns }
{}

/// Nothing is a start of what is settled.
pub fn nothing_starts()
    ensures { NothingStarts }
{}

/// Whatever the clusters append to their logs, what was settled stays a start of what is settled.
pub fn settled_parts_stay()
    ensures { SettledPartsStay }
{}

/// The merge of logs begins with each start of it, so with what is settled.
pub fn merges_begin()
    ensures { MergesBegin }
{}

/// A written log is admissible in which a hart loads its own store, commits it, and loads the version
/// that it made.
pub fn forwarding_is_admissible()
    ensures { ForwardingIsAdmissible }
{}

/// A written log of message passing is admissible: one hart writes a message and then the flag by a
/// release, and another reads the flag by an acquire and then the message.
pub fn message_is_admissible()
    ensures { MessageIsAdmissible }
{}

/// The image of that log is properly labelled on a machine of two harts.
pub fn message_is_properly_labelled()
    ensures { MessageIsProperlyLabelled }
{}

/// So the records of that log are a sequential run, with no premise on labels.
pub fn message_is_in_order()
    ensures { MessageIsInOrder }
{}
