//! How an actor takes the write latch of a node.
//!
//! It takes a claim and then the write, each only if no other actor's latch is in the way. An actor that has to wait
//! keeps no latch meanwhile, so that no two actors wait for each other. For a node and its child it takes the parent
//! first. Nothing here loops: the caller decides when to try again.
#![tactic(auto)]

mod check;
mod entering;

pub use check::check_turns;
pub use entering::{enter, enter_both};
