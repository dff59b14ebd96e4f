//! The steps that make a branch of a frozen memtable: an actor picks it, is granted extents, publishes the branch that
//! it wrote there, and hangs that branch at the root, where it replaces the memtable.
//!
//! Each step is one function. Its contract says which cause decides its answer, in a fixed order, what it makes of the
//! state, and what it keeps for all other actors.
#![tactic(auto)]

mod draft;
mod job;

pub use draft::{incorporate, publish};
pub use job::{grant, pick_frozen};
