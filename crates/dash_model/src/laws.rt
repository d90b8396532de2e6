//! Laws of the definitions. The functions do nothing: their contracts are the laws.
ghost use Rattle.dash_model.specs.BufferFacts.{BuffersHoldUncommittedStores};
ghost use Rattle.dash_model.specs.Cases.{CasesApply};
ghost use Rattle.dash_model.specs.Examples.{ExampleRuns};
ghost use Rattle.dash_model.specs.History.{VersionsStayBelowGreatest};
ghost use Rattle.dash_model.specs.LineFacts.{RunsKeepLines};
ghost use Rattle.dash_model.specs.LocalHarts.{LocalRunsKeepHarts};
ghost use Rattle.dash_model.specs.LocalWeights.{LocalWeightsFall, LocalRunsQueueAtHome};
ghost use Rattle.dash_model.specs.LockFacts.{MessagesAreInRange, LinesAreOfMemory, RunsKeepLocks, LocksAreCounted, LockUsesAreNumbered};
ghost use Rattle.dash_model.specs.MachineLaws.{EventsFixEffects, LanesAreQueues, StepsChangeOnePart, StampsRise, CommitsAreNumbered, EventsHappen, LocalRunsGrow, MergesAreRuns};
ghost use Rattle.dash_model.specs.OwedFacts.{RunsOweAsLogged};
ghost use Rattle.dash_model.specs.PendingFacts.{PendingLinesAreKept};
ghost use Rattle.dash_model.specs.RunEnds.{SettledRunsAreReplayed, DrainedHartsHaveCommitted, LocksHaveLastUses, WaitersAsk};
ghost use Rattle.dash_model.specs.RunLaws.{RunsAreAdmissible, RunsAreCoherent, RunsKeepReleases};
ghost use Rattle.dash_model.specs.Settling.{WeightFalls};
ghost use Rattle.dash_model.specs.TableAccesses.{RowsOfAccesses};
ghost use Rattle.dash_model.specs.TableHarts.{RowsOfHarts};
ghost use Rattle.dash_model.specs.TableHome.{RowsOfHome};
ghost use Rattle.dash_model.specs.TableLines.{RowsOfLines};
ghost use Rattle.dash_model.specs.TableLocks.{RowsOfLocks};
ghost use Rattle.dash_model.specs.TableMessages.{RowsOfMessages};

/// Every run keeps the facts of each line of memory: one token, whose content is by the log the current
/// one, in its version and in each word; an entry that knows where it is; messages that go to the home, or
/// come from it, as their kinds do; one answer to each request; exact counts of acknowledgements; an
/// invalidation on its way to whatever is stale; each cluster with a copy covered by the home; one epoch of
/// invalidations at a time; and nowhere a version that the log has not committed.
pub fn runs_keep_lines()
    ensures { RunsKeepLines }
{}

/// In every run each cluster's entry of a line counts its acknowledgements as the log does: what is due to
/// the cluster, as announced and not yet taken, is the number expected less those that came. And the entry
/// owes to the harts to whom the log does, and to no other: those of its cluster that committed a version of
/// the line since the cluster last took the line to own, while acknowledgements are due.
pub fn runs_owe_as_logged()
    ensures { RunsOweAsLogged }
{}

/// In every run, while a cluster has a line to own and waits for acknowledgements of it, what it commits is
/// nowhere else: no content in the home's memory, in another cluster's copy, in a slot, or on its way is of
/// a version that was committed after the cluster last took the line to own.
pub fn pending_lines_are_kept()
    ensures { PendingLinesAreKept }
{}

/// Every run is coherent, whatever the image: the writes of each line, and of each lock word, stand in one
/// order, in which each is seen as what it is, and which no hart sees backwards.
pub fn runs_are_coherent()
    ensures { RunsAreCoherent }
{}

/// Every run keeps the release rule, whatever the image. A release finds its hart's earlier stores
/// committed, and no acknowledgement owed to the hart; and from then on no one is shown an older version
/// of a line than those that the hart committed before it. What an atomic operation commits, all later
/// accesses see.
pub fn runs_keep_releases()
    ensures { RunsKeepReleases }
{}

/// Every run leaves an admissible log, whatever the image. Each hart's events are its own instructions, one
/// after another, each answered as its event says. The log is coherent and keeps the release rule. An SC
/// succeeds only where the hart's last LR reserved its word, and no other hart has committed a write of the
/// word since. A lock word is freed only for an Unlock that was sent.
pub fn runs_are_admissible()
    ensures { RunsAreAdmissible }
{}

/// In every run the stores of a hart are those that the log commits, in the order of their commits, and
/// then those that wait in its write buffer: each with the number, word, mask and value of its Store event.
pub fn buffers_hold_uncommitted_stores()
    ensures { BuffersHoldUncommittedStores }
{}

/// In every run each message on its way is of a line of memory or of a lock word, and goes to a cluster of
/// the machine: to the home of its line or word where its row wants that. The clusters and harts that it
/// names exist.
pub fn messages_are_in_range()
    ensures { MessagesAreInRange }
{}

/// In every run copies and slots are of lines of memory, and of clusters of the machine.
pub fn lines_are_of_memory()
    ensures { LinesAreOfMemory }
{}

/// In every run a hart whose lock instruction was sent has exactly one lock message on its way or one
/// place in a queue, and any other hart has none; that instruction is still the hart's next; and whoever
/// waits for a lock word is a hart of the machine.
pub fn runs_keep_locks()
    ensures { RunsKeepLocks }
{}

/// In every run a message that is taken finds a case of its row. Its numbers are in range, its line or word
/// has the right home, and there is room for what it adds: fewer harts wait at a home than there are where
/// one asks there for a lock word, and one acknowledgement more fits. What it is for is there: the owner
/// that the directory's entry names, the slot that waits for the answer, the line's entry that counts the
/// acknowledgement, the hart whose lock instruction was sent. No Unlock is left to a Take: its home frees
/// the word.
pub fn cases_apply()
    ensures { CasesApply }
{}

/// In every run the count of a lock word is the number of the log's Grant and Free events of that word: it
/// never reaches its greatest value, since harts have no more instructions than their budgets.
pub fn locks_are_counted()
    ensures { LocksAreCounted }
{}

/// In a run each access of a lock word that is granted or freed is shown how many were before it.
pub fn lock_uses_are_numbered()
    ensures { LockUsesAreNumbered }
{}

/// Where a run has nothing on its way, each hart of the machine stands as every replay of the log leaves it:
/// all that the log records of the hart is done.
pub fn settled_runs_are_replayed()
    ensures { SettledRunsAreReplayed }
{}

/// In every run a hart whose write buffer is empty has committed each store that the log has of it.
pub fn drained_harts_have_committed()
    ensures { DrainedHartsHaveCommitted }
{}

/// In every run a lock word has at its home what its last use in the log wrote, a grant or a free, or 0 where
/// the log has no use of it.
pub fn locks_have_last_uses()
    ensures { LocksHaveLastUses }
{}

/// In every run the next instruction of a hart in the queue of a lock word asks for that lock word.
pub fn waiters_ask()
    ensures { WaitersAsk }
{}

/// In every run each message that is taken, each Unlock that is served, each grant of a lock word, each line
/// that is installed, and each eviction of what is in the way of a line that came lowers the weight of the
/// machine. None of them asks for a line: no message that asks for one is sent, and no slot asks that had not
/// asked before, so a refused one does not ask again.
pub fn weight_falls()
    ensures { WeightFalls }
{}

/// Each event fixes its effect: what its fields leave out makes no difference.
pub fn events_fix_effects()
    ensures { EventsFixEffects }
{}

/// A lane is first in, first out.
pub fn lanes_are_queues()
    ensures { LanesAreQueues }
{}

/// A step changes the part of its own cluster, takes at most the head of one lane, and adds at the
/// ends of its own lanes and of the console.
pub fn steps_change_one_part()
    ensures { StepsChangeOnePart }
{}

/// Where a cluster runs by itself, and stamps stay below the greatest one, each event's stamp is above that
/// of the event before it and that of the message that it takes. In any case stamps never fall.
pub fn stamps_rise()
    ensures { StampsRise }
{}

/// There are complete runs, of one and two clusters and one and two harts in a cluster, in which every
/// event and every message of the table is there, and every exit status that a complete run can have.
pub fn every_row_happens()
    ensures { ExampleRuns }
{}

/// A local run goes on with any step that its part allows, and adds what that step sends and takes.
pub fn local_runs_grow()
    ensures { LocalRunsGrow }
{}

/// A local run keeps its harts, whatever its lanes bring: a hart whose lock instruction was sent has a lock
/// instruction as its next one, so it goes on, and each store that waits is to a word of memory.
pub fn local_runs_keep_harts()
    ensures { LocalRunsKeepHarts }
{}

/// Wherever a local run leads that took messages from clusters of the machine alone, each event by which the
/// cluster settles lowers its own weight: what it sends and what it leaves together weigh less than what it takes
/// and what it had.
pub fn local_weights_fall()
    ensures { LocalWeightsFall }
{}

/// In a local run, whatever its lanes bring, nobody waits at the cluster for a lock word of another home.
pub fn local_runs_queue_at_home()
    ensures { LocalRunsQueueAtHome }
{}

/// Where clusters run by themselves, each takes from its lanes what the others sent, and stamps stay
/// below the greatest one, the merge of their logs is a run. It leaves each cluster's part as its own
/// run did, and each lane with what was not taken.
pub fn merges_are_runs()
    ensures { MergesAreRuns }
{}

/// Each event of a run happens in the state that the events before it lead to; so those are a run too.
pub fn events_happen()
    ensures { EventsHappen }
{}

/// In a run each commit makes the version that is one more than the number of its line's commits before
/// it, and an atomic operation is shown the version of that number.
pub fn commits_are_numbered()
    ensures { CommitsAreNumbered }
{}

/// In a run a line has no more commits than all harts together may retire instructions: the number of harts
/// times their budget. That is below the greatest version, and so is each version that a commit makes.
pub fn versions_stay_below_the_greatest()
    ensures { VersionsStayBelowGreatest }
{}

/// The table's rows of the instructions that use no line, on concrete parts of a small machine: what each
/// event makes of its cluster, where it may happen, and where it never does, once for each of its conditions.
pub fn rows_of_harts()
    ensures { RowsOfHarts }
{}

/// The same of loads, stores, commits, atomic operations and failed SCs.
pub fn rows_of_accesses()
    ensures { RowsOfAccesses }
{}

/// The same of what a cluster does to a line by itself.
pub fn rows_of_lines()
    ensures { RowsOfLines }
{}

/// The rows of the messages that the home of a line takes: what each makes of the home and sends, by the
/// entry, and that it makes nothing where no case applies.
pub fn rows_of_home()
    ensures { RowsOfHome }
{}

/// The same of the other messages of lines, by what the cluster has.
pub fn rows_of_messages()
    ensures { RowsOfMessages }
{}

/// The rows of lock words: grants, frees, and their messages.
pub fn rows_of_locks()
    ensures { RowsOfLocks }
{}
