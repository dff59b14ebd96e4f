//! The trunk: the tree over the branches, as nodes with numbers. The root is node 0.
//!
//! Nodes are changed only through the trunk, by their numbers, so that no caller keeps a reference to one while another
//! one changes. A node of height 0 is a leaf; above, each pivot has a child one lower. What a trunk means for a key is
//! defined here, with its shape and the lemmas on both (`specs/Tree.antt`).
#![tactic(auto)]

mod grow;
#[cfg(test)]
mod tests;
mod trunk;

pub use grow::Grow;
pub use trunk::{MAX_NODES, Trunk};
