//! The lock words of a home: what each holds, how often it was granted or freed, and who waits for
//! it, in the order of asking.
//!
//! No call but `Locks::new` takes memory, and none but that can fail.
#![tactic(auto)]

pub use locks::Locks;
pub use waiter::Waiter;

pub mod laws;
mod locks;
mod opening;
mod waiter;
mod word;
