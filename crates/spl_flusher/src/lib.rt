//! A worker's job that flushes: what is live for a child in its parent becomes the newest bundle of the child.
//!
//! The actor takes the write latches of both nodes for that one step, the parent's first. If another actor's latch is
//! in the way of either, it keeps neither while it waits. If the child has no room, or the branches are too many for
//! one bundle, the answer says so, and another job has to make room or merge first.
//!
//! However the job ends, the actor has nothing afterwards.
#![tactic(auto)]

mod flushed;
mod flushing;

pub use flushed::Flushed;
pub use flushing::flush_to;

#[cfg(test)]
mod tests;
