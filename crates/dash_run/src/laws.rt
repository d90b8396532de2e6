//! Laws of reports, and of the calls of `dash`: what follows from the clause `outcome`. The functions do
//! nothing: their contracts are the laws.
ghost use Rattle.dash_run.specs.Laws.{PrintedAccessesAreTheRecords, ConsoleIsOfTheLog, HartsThatAreLeftWait, CompleteRunsAreNotEmpty, OneReport, OneMachine, PrintedLogsAreReadBack};
ghost use Rattle.dash_run.specs.Statuses.{UsageHasCause, RefusalHasCause, BadTopologyHasCause, FaultHasCause, OutOfMemoryIsQuiet, RunHasCause, NoFormIsUsage, FailedLoadIsFault, FailedPrintIsFault, LargeFileIsFault, BadTopologyIsTold, RefusalIsTold, AcceptedImageRuns, FailedReportLeavesRun, RunsLoadAndPrint, UsageMakesOneCall, NothingAfterFailedPrint};

use dash_model::laws::events_fix_effects;
use trace_text::laws::reading_gives_back;

/// The accesses of a log, which the report prints, are those of its records, in their order.
pub fn printed_accesses_are_the_records()
    ensures { PrintedAccessesAreTheRecords }
{}

/// The console of the state that a run leads to, which the report prints, is that of its log.
pub fn console_is_of_the_log()
    ensures { ConsoleIsOfTheLog }
{}

/// Where a complete run ends, a hart that runs and has instructions left, which the report calls waiting,
/// waits for a lock word.
pub fn harts_that_are_left_wait()
    ensures { HartsThatAreLeftWait }
{}

/// Something happens in each complete run.
pub fn complete_runs_are_not_empty()
    ensures { CompleteRunsAreNotEmpty }
{}

/// A log has one report: two calls for a request and the bytes of an image's file, whose logs are one, have
/// one exit status and one text.
pub fn one_report()
    ensures { OneReport }
{
    events_fix_effects();
}

/// Where the host tells its files, the words ask for one machine: one image, and one topology.
pub fn one_machine()
    ensures { OneMachine }
{}

/// What `read_log` gives of the log section of a report is the log of its run.
pub fn printed_logs_are_read_back()
    ensures { PrintedLogsAreReadBack }
{
    reading_gives_back();
}

/// Status 2 comes only where the words have no form.
pub fn usage_has_cause()
    ensures { UsageHasCause }
{}

/// Status 3 comes only for an image that is refused.
pub fn refusal_has_cause()
    ensures { RefusalHasCause }
{}

/// Status 4 comes only for a topology that is refused.
pub fn bad_topology_has_cause()
    ensures { BadTopologyHasCause }
{}

/// Status 5 comes only where a count of faults rose, or for a file above the limit.
pub fn fault_has_cause()
    ensures { FaultHasCause }
{}

/// With status 6 nothing was printed.
pub fn out_of_memory_is_quiet()
    ensures { OutOfMemoryIsQuiet }
{}

/// The statuses of a run come only for a whole run of an image that is accepted, or of a seed's workload.
pub fn run_has_cause()
    ensures { RunHasCause }
{}

/// Words without a form give status 2, or 5 where the line could not be printed.
pub fn no_form_is_usage()
    ensures { NoFormIsUsage }
{}

/// A load that failed gives status 5 or 6.
pub fn failed_load_is_fault()
    ensures { FailedLoadIsFault }
{}

/// A print that failed gives status 5.
pub fn failed_print_is_fault()
    ensures { FailedPrintIsFault }
{}

/// Where no fault was counted, a file above the limit gives status 5 or 6.
pub fn large_file_is_fault()
    ensures { LargeFileIsFault }
{}

/// Where no fault was counted and the file is within the limit, a topology that is refused gives
/// status 4 or 6.
pub fn bad_topology_is_told()
    ensures { BadTopologyIsTold }
{}

/// Where no fault was counted and the file is within the limit, an image that is refused gives
/// status 3 or 6.
pub fn refusal_is_told()
    ensures { RefusalIsTold }
{}

/// Where no fault was counted and the file is within the limit, an image that is accepted gives the
/// status of its run, or 6.
pub fn accepted_image_runs()
    ensures { AcceptedImageRuns }
{}

/// Where no load failed and the image and its topology are accepted, status 5 comes after a run, which is
/// left: a print of its report failed.
pub fn failed_report_leaves_run()
    ensures { FailedReportLeavesRun }
{}

/// With the statuses of a run the calls of the host were one load and a print of each section: three, or
/// four where the words ask for the log. For a seed the only call was a print of its summary.
pub fn runs_load_and_print()
    ensures { RunsLoadAndPrint }
{}

/// With status 2 the only call of the host was the print of the usage line.
pub fn usage_makes_one_call()
    ensures { UsageMakesOneCall }
{}

/// No call of the host follows a print that failed.
pub fn nothing_after_failed_print()
    ensures { NothingAfterFailedPrint }
{}
