//! Laws of the definitions. The functions do nothing: their contracts are the laws.
ghost use Rattle.queue_lock.specs.Laws.{CallsChangeOneWord, WaitersAreCounted};

/// A call on a lock word changes at most that one, and the home has the same words after it.
pub fn calls_change_one_word()
    ensures { CallsChangeOneWord }
{}

/// One more waits after an ask, one fewer after a grant, and as many after a free.
pub fn waiters_are_counted()
    ensures { WaitersAreCounted }
{}
