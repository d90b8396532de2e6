//! What a unit has of its cluster.

use ack_counter::AckTable;
use dash_base::WordAddr;
use directory::Home;
use hart_core::{Front, Hart};
use queue_lock::Locks;
use remote_cache::Slots;
use snoop_bus::Bus;
use write_buffer::Buffer;

/// One hart of the cluster: its registers, its next instruction, which was found when it came to it,
/// the word that it has reserved, the stores that it has not committed, and whether its lock
/// instruction was sent.
#[derive(Drop)]
pub struct Local {
    pub core: Hart,
    pub front: Front,
    pub reserved: Option<WordAddr>,
    pub buffer: Buffer,
    pub asked: bool,
}

/// The parts of a cluster: its harts, by their numbers in the cluster; their caches; the requests for
/// lines; the acknowledgements that are counted; and the lines and lock words whose home it is.
#[derive(Drop)]
pub struct Parts {
    pub locals: Vec<Local>,
    pub bus: Bus,
    pub slots: Slots,
    pub acks: AckTable,
    pub home: Home,
    pub locks: Locks,
}
