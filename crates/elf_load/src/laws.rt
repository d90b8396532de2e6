//! Laws of the refusals. The functions do nothing: their contracts are the laws.
ghost use Rattle.elf_load.specs.Laws.{OneRefusal, AcceptedOrRefused, AcceptedIsSound};

/// A file has one refusal at most.
pub fn one_refusal()
    ensures { OneRefusal }
{}

/// A file is accepted, or it has a refusal.
pub fn accepted_or_refused()
    ensures { AcceptedOrRefused }
{}

/// A file that is accepted has segments within the file and within memory, of which no two share an
/// address, and an entry in one that may be executed.
pub fn accepted_is_sound()
    ensures { AcceptedIsSound }
{}
