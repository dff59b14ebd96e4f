//! The memtables of a store: the active one, which takes the writes, and up to four frozen ones.
//!
//! A full memtable is frozen with a number of its own, an actor picks it to make a branch of it, and the oldest is
//! dropped when its branch is in the trunk. A frozen memtable is shared with whoever reads or packs it, and never
//! copied.
#![tactic(auto)]

mod frozen_table;
mod memtables;
mod slices;

pub use frozen_table::Picked;
pub use memtables::{FROZEN_TABLES, Memtables, Oldest, Rotation};
pub use slices::Slices;

#[cfg(test)]
mod tests;
