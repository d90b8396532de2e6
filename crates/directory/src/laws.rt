//! Laws of the definitions. The functions do nothing: their contracts are the laws.
ghost use Rattle.directory.specs.Laws.{SharersAreSets, ServingChangesOneLine};

/// The bits of an entry are a set of clusters.
pub fn sharers_are_sets()
    ensures { SharersAreSets }
{}

/// A message changes at most what is kept of its own line, and that as its row says.
pub fn serving_changes_one_line()
    ensures { ServingChangesOneLine }
{}
