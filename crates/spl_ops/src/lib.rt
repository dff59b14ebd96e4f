//! The merge laws that are chosen by name: sums, the greatest value, and the last bytes.
//!
//! A law folds an update into what its key has. Each law here also folds two updates into one, and its rule in
//! `specs/Rules.antt` carries the proof that both ways give the same value. The laws of sums read a value as a number;
//! bytes that are no number of 64 bits count as 0. No law looks at the key. The only memory that a law takes is that
//! of the value that it answers.
#![tactic(auto)]

mod capped;
mod kind;
mod number;
mod text;

pub use capped::Capped;
pub use kind::Kind;

#[cfg(test)]
mod tests;
