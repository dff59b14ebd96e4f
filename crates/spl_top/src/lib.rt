//! The program as a function from words and an input to a report.
//!
//! `splinter` reads its words, then the input to its end, then the script, runs it and writes the report. Its clauses
//! are what the shipped program promises.
#![tactic(auto)]

mod ending;
mod top;

pub use top::splinter;

#[cfg(test)]
mod tests;
