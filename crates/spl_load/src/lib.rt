//! The run of a script that is made of a seed, told in one line.
//!
//! The line counts the rows and has a digest of their text, so that two runs of the same script are compared without
//! their reports (`specs/Line.antt`).
#![tactic(auto)]

mod digest;
mod line;
mod run;

pub use run::{Loaded, load, one_run};

#[cfg(test)]
mod tests;
