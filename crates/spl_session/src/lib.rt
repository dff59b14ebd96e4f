//! The calls of the store over a desk, each as a loop of steps of the core. `Session` has them as methods.
//!
//! A put goes into the active memtable. A full one is frozen; when four are frozen, the put first packs one of them.
//! Between two steps of a put the holder's actor has nothing, so a put that stops leaves nothing behind, and one that
//! ends with an error has changed no key.
//!
//! A lookup is one descent of `spl_down`. At each node it combines the messages that the key has there, newest first,
//! and ends once nothing below matters any more. Pages are read while the node is latched, so no branch is freed under
//! a read.
#![tactic(auto)]

mod ask;
mod found;
mod look;
mod puts;
mod session;
mod steps;
mod way;
mod write;

pub use found::Found;
pub use look::lookup;
pub use puts::{delete, insert, put, update};
pub use session::Session;
pub use spl_down::Stopped;
pub use write::Write;

#[cfg(test)]
mod tests;
