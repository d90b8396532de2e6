//! Tests of the parts of a cluster, each by its own model. A crate with tests is proved again with them, so they stand here, above all that they test.
#![tactic(auto)]

#[cfg(test)]
mod acknowledgements;
#[cfg(test)]
mod arbiters;
#[cfg(test)]
mod arrays;
#[cfg(test)]
mod buses;
#[cfg(test)]
mod homes;
#[cfg(test)]
mod lanes;
#[cfg(test)]
mod levels;
#[cfg(test)]
mod lock_words;
#[cfg(test)]
mod messages;
#[cfg(test)]
mod prefetches;
#[cfg(test)]
mod releases;
#[cfg(test)]
mod retries;
#[cfg(test)]
mod slots;
#[cfg(test)]
mod write_buffers;
