//! A law of topologies.
ghost use Rattle.topology.specs.Document.{NoSizeIsOutOfBounds};

/// What stands for a value that is no number of 32 bits is out of the bounds of every key, whatever the
/// other sizes are.
pub fn no_size_is_out_of_bounds()
    ensures { NoSizeIsOutOfBounds }
{}
