//! A cluster as a unit: what it may do next, and each event that it does as a step of the written machine.
#![tactic(auto)]

pub use fresh_units::units;
pub use meeting::meet_units;
pub use turn::Turn;
pub use unit::Unit;
pub use unit_core::Core;

mod act;
mod answers;
mod bus_choices;
mod by_number;
mod cause;
mod enabled;
mod ends;
mod events;
mod evict_choices;
mod first_eviction;
mod first_serial;
mod first_settling;
mod first_take;
mod fresh_lanes;
mod fresh_units;
mod grants;
mod list;
mod listing;
mod meeting;
mod messages;
mod needs;
mod offers;
mod quiet;
mod range;
mod reserve;
mod room;
mod serial;
mod settling;
mod step;
mod takes;
mod turn;
mod unit;
mod unit_core;
mod victims;
