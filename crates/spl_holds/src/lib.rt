//! Which actor holds which node of the trunk, and how.
//!
//! Any number of actors may read a node at once. One more may claim it beside them, and then lock
//! it once they have left. A call that the others' grips forbid is refused at once, and names one
//! of them: nothing here waits.
#![tactic(auto)]

mod counts;
mod grip;
mod held;
mod holds;
mod latch;
mod tally;
#[cfg(test)]
mod tests;

pub use counts::Counts;
pub use grip::Grip;
pub use held::Held;
pub use holds::{Holds, NODES};
