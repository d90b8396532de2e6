//! Laws of the definitions. The functions do nothing: their contracts are the laws.
ghost use Rattle.remote_cache.specs.Laws.{LinesHaveOneSlot, SetSlotsStand, MessagesChangeOneSlot};

/// Where at most one slot has a line, the slot of a line is the one that has it, and there is none
/// exactly where no slot has it.
pub fn lines_have_one_slot()
    ensures { LinesHaveOneSlot }
{}

/// A slot that is set has what it was set to, and no other slot changes.
pub fn set_slots_stand()
    ensures { SetSlotsStand }
{}

/// A reply or an invalidation changes no slot but that of its line.
pub fn messages_change_one_slot()
    ensures { MessagesChangeOneSlot }
{}
