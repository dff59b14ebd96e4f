//! The steps of the core that change one part of the state: puts, the freezing of a memtable, the latches of the trunk,
//! and the end of a caller.
//!
//! Each step is one function. Its contract says which cause decides its answer, in a fixed order, what it makes of the
//! state, and what it keeps for all other actors.
#![tactic(auto)]

mod callers;
mod latch;
mod memory;

pub use callers::retire;
pub use latch::{claim, lock, unlock};
pub use memory::{put, rotate};
