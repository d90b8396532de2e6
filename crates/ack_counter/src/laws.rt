//! Laws of the definitions. The functions do nothing: their contracts are the laws.
ghost use Rattle.ack_counter.specs.Laws.{CallsChangeTheirLine, CallsKeepOtherLines, EntriesAreCounted, OwedIsByLine};

/// What each call makes of the entry of its line.
pub fn calls_change_their_line()
    ensures { CallsChangeTheirLine }
{}

/// No call changes the entry of another line.
pub fn calls_keep_other_lines()
    ensures { CallsKeepOtherLines }
{}

/// How many lines have an entry after each call; and where each of them is below a number, they are as
/// many as the lines below it that have one.
pub fn entries_are_counted()
    ensures { EntriesAreCounted }
{}

/// No acknowledgements are owed to a hart exactly where no line's entry is owed to it.
pub fn owed_is_by_line()
    ensures { OwedIsByLine }
{}
