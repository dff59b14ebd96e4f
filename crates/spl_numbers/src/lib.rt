//! Sets of small numbers that take memory only when they are made.
//!
//! A set has three levels of bits: one for each number, one for each word of those that is not 0, and one for each such
//! word again. So a member is found, a number added or removed in a few steps, however many numbers there are.
#![tactic(auto)]

mod bits;
mod numbers;
#[cfg(test)]
mod tests;

pub use numbers::{LIMIT, Numbers};
