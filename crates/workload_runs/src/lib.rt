//! What runs of the generated workload leave on the machine of caches and messages: the counters of a log, and
//! the summary of a run, which is the one that the workload comes to by itself.
#![tactic(auto)]

pub use counters::counters_of;
pub use summary::summary_of_run;

mod counters;
pub mod laws;
mod summary;
