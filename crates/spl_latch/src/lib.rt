//! A latch over one value: many threads may read it at the same time, or one may replace it.
//!
//! No call waits: one that does not get the value returns the word that it met, and its caller may try again. The word
//! holds the state, the count of readers and a mark beside the value (`word.rt`). What the values of a latch have in
//! common is a fact that its maker states (`Fits`); whoever reads one may rely on it.
#![tactic(auto)]

mod found;
mod latched;
mod read;
mod word;
mod write;

pub use counted_slot::Fits;
pub use found::Found;
pub use latched::Latched;
pub use read::Read;
pub use write::Write;

#[cfg(test)]
mod tests;
