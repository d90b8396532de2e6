//! The rows of the machine's table in code: what each event does to the parts of one cluster.
//!
//! A row knows the parts and the table, and nothing of logs, stamps or lanes. Where a row's call answers
//! that something was done, its event may happen on each part of the machine that the parts show, makes
//! the part that they show afterwards, and sends what is handed back. Where the answer is none, no event
//! of that choice may happen. No call but `opening_parts` takes memory.
#![tactic(auto)]

pub use atomics::{atomic, fits_atomic};
pub use bus::{bus_own, bus_read, fits_bus_own, fits_bus_read, fits_needed_own, fits_needed_read};
pub use choice::Choice;
pub use commits::{commit, fits_commit};
pub use evictions::{evict, fits_evict};
pub use hints::hint;
pub use installs::{fits_install, install};
pub use instructions::{alu, fence, fits_fence, put, stop};
pub use loads::{fits_load, load};
pub use lock_instructions::{ask, fits_ask, fits_unlock, unlock};
pub use lock_words::{fits_grant, free, grant, is_free};
pub use messages::take;
pub use needed::{Needed, find_needed};
pub use needs::{is_this, needed_copy, needed_store, needed_write};
pub use opening::opening_parts;
pub use outcome::Outcome;
pub use parts::{Local, Parts};
pub use requests::{again, fits_again, fits_request, request};
pub use site::Site;
pub use source::Source;
pub use stores::{fits_store, store};
pub use wanted::{reads_other, stores_other, writes_other};
pub use ways::in_the_way;

mod atomics;
mod burst;
mod bus;
mod causes;
mod choice;
mod commits;
mod evictions;
mod forwards;
mod held;
mod hints;
mod installs;
mod instructions;
mod line_words;
mod loads;
mod lock_instructions;
mod lock_words;
mod messages;
mod needed;
mod needs;
mod opening;
mod outcome;
mod parts;
mod replies;
mod requests;
mod served;
mod site;
mod source;
mod stores;
mod sweep;
mod wanted;
mod ways;
