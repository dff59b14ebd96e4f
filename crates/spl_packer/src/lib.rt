//! A worker's job that packs: the oldest frozen memtable becomes a branch, which hangs at the root.
//!
//! The memtable is picked first, so that no two actors pack the same one. Its branch is written between two steps, page
//! by page, in extents that are granted only when the next page needs one. Then the branch is published, and the actor
//! writes the root to hang it there. Memtables are hung in the order of their age: while another actor packs an older
//! one, this one leaves the root and tries again.
//!
//! A job that stops gives back all that its actor has, so the memtable can be picked again.
#![tactic(auto)]

mod build;
mod hang;
mod packed;
mod packing;

pub use packed::Packed;
pub use packing::pack;

#[cfg(test)]
mod tests;
