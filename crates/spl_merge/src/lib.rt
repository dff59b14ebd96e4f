//! Merging: the entries of several streams in one order, with one message a key.
//!
//! A merger holds the first entry of each stream, its head. Each step takes the heads of the least key, combines their
//! messages from the oldest stream to the newest, and returns the entry that the merge keeps, if it keeps one. The
//! caller then gives the next entries of the streams that were taken from. A heap orders the heads, so that a step
//! looks at few of them. A message that has its key alone is moved through without a copy.
#![tactic(auto)]

mod merger;
mod step;

pub use merger::Merger;
pub use step::Step;

#[cfg(test)]
mod tests;
