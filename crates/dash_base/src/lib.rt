//! What every layer of the simulator speaks of: numbered parts of the machine, words and masks,
//! instructions, and the outside world.
//!
//! Nothing here knows how an instruction is encoded or carried out, or what a cache is. The crates
//! above take their names from here, and add none of their own for the same things.
#![tactic(auto)]

pub use end::{End, Trap};
pub use host::{Failed, Host, LoadFault, Stream};
pub use id::{ClusterId, HartId, LineId, WordAddr};
pub use instr::{Amo, Branch, Fence, Instr, Jal, Jalr, Labels, Load, Op, OpImm, Store, Upper};
pub use line::Line;
pub use mask::{Mask, merge};
pub use memory::OutOfMemory;
pub use memory_host::MemoryHost;
pub use need::{HintKind, Need};
pub use ops::{AluOp, AmoOp, BranchOp, LoadOp, StoreOp};
pub use places::{first_prefetch, home_among};
pub use segment::Segment;
pub use sizes::{KEYS, Sizes, default_stack};
pub use topology::{Key, KeyName, TopoRefusal, Topology};

mod end;
mod host;
mod id;
mod instr;
mod line;
mod mask;
mod memory;
mod memory_host;
mod need;
mod ops;
mod places;
mod segment;
mod sizes;
mod topology;
