//! Laws of logs and their texts. The functions do nothing: their contracts are the laws.
ghost use Rattle.trace_text.specs.TextLaws.{TextsTellLogs, ReadingGivesBack, TextsOfLogsAreRead};

/// A text is that of one log at most: two logs of the same text, whose numbers are within the bounds of
/// their types, are the same log.
pub fn texts_tell_logs()
    ensures { TextsTellLogs }
{}

/// Reading gives back what was written: where `write_log` made a text of one log, and `read_log` gives a log
/// of that text, it is the same log.
pub fn reading_gives_back()
    ensures { ReadingGivesBack }
{}

/// The text of a log is never refused but for want of memory: no other refusal of `read_log` holds of it.
pub fn texts_of_logs_are_read()
    ensures { TextsOfLogsAreRead }
{}
