//! The bundles of a node: a queue of lists of branch numbers, numbered consecutively.
//!
//! New bundles come at the end, old ones leave at the front, and a run of bundles can be merged into one. Each
//! bundle may carry the mark of an actor that is about to merge it. All space is reserved by `new`, so no call takes
//! memory.
#![tactic(auto)]

mod bundles;
mod limit;
mod slots;
#[cfg(test)]
mod tests;

pub use bundles::{Bundles, MAX_BRANCHES, MAX_LISTS};
pub use limit::Limit;
