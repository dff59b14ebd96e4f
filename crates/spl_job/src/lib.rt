//! The steps of an actor that works on a core: it packs a memtable, merges the bundles of a node, flushes them to a
//! child, or lets the trunk grow.
//!
//! Each step of the core is one function, which says what the actor has afterwards (`specs/Holding.antt`). A branch is
//! written between two steps, and an extent is granted only when the next page needs one.
#![tactic(auto)]

pub mod flushing;
pub mod growing;
pub mod merging;
pub mod steps;
#[cfg(test)]
mod tests;
