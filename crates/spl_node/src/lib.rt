//! A node of the trunk: pivots that divide its range among children, and the bundles that wait to be flushed to them.
//!
//! Each pivot has the key at which its part of the range starts, the number of its child, and a mark. A bundle is live
//! for a pivot if the pivot's mark is at most the bundle's number; a flush to a child raises its pivot's mark. A bundle
//! that is live for no pivot can be dropped (`trim`).
//!
//! All space is reserved when a node is made, so only the calls that make one, and `live`, take memory.
#![tactic(auto)]

mod node;
mod pivot;
#[cfg(test)]
mod tests;

pub use node::{MAX_PIVOTS, Node};
pub use pivot::{Pivot, Pivots};
