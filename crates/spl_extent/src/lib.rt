//! The extents of a store, each free, granted to one actor, or held by one branch.
//!
//! The pool keeps the owner of every extent, a stack of the free ones, and for each actor the set of its grants. So a
//! call takes a few steps, and to give back all grants of an actor takes as many as it has.
//!
//! Which of the free extents a grant gives is unspecified, so that the pool may come to prefer neighbours.
#![tactic(auto)]

mod owner;
mod pool;
#[cfg(test)]
mod tests;

pub use owner::Owner;
pub use pool::{EXTENTS, Pool};
