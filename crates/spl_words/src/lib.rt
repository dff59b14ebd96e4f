//! The words of the program: a command with its options.
//!
//! `specs/Words.antt` has the table of the options, and says which command a list of words spells, or that it spells none.
//! Reading answers exactly that, and takes no memory.
#![tactic(auto)]

mod command;
mod number;
mod options;
mod words;

pub use command::{Command, Merge, Setup};
pub use words::read_words;

#[cfg(test)]
mod tests;
