//! Tests of logs, of reports, of machines in rounds, of what a cluster opens with and of its atomic
//! operations. A crate with tests is proved again with them, so they stand here, above all that they test.
#![tactic(auto)]

#[cfg(test)]
mod atomics;
#[cfg(test)]
mod logs;
#[cfg(test)]
mod openings;
#[cfg(test)]
mod reports;
#[cfg(test)]
mod rounds;
#[cfg(test)]
mod shown;
