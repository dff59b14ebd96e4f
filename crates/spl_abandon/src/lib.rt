//! The step by which an actor gives back all that it has, whatever it was doing: its descent ends, its latches and
//! extents are free again, its memtable can be picked again, and the marks and references of its job are gone. It takes
//! no memory, so a call that ran out of memory can still clean up. No key changes what it means.
#![tactic(auto)]

mod job;
mod step;
#[cfg(test)]
mod tests;

pub use step::abandon;
