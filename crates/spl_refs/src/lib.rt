//! The published branches of a store, each with its reference count.
//!
//! Bundles, the inputs of compactions and drafts refer to branches by their numbers. `let_go` returns a branch exactly
//! when its last reference is dropped, so that its extents can be freed.
#![tactic(auto)]

mod counted;
mod refs;
#[cfg(test)]
mod tests;

pub use refs::Refs;
