//! The run of a script by one caller over a core: its rows, its status, and why it ended.
//!
//! `specs/Legal.antt` says which rows are one history of a script, line by line, and `specs/Status.antt` which status goes with
//! them. What the turns of the run show of its end is in `specs/Turns.antt` and `specs/Solo.antt`.
#![tactic(auto)]

mod calls;
mod one_caller;
mod run;
mod scan;

pub use one_caller::{Ended, solo};

#[cfg(test)]
mod tests;
