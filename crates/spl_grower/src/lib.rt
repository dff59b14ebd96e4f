//! A worker's jobs by which the trunk grows: the root is raised over a new node, or a child is split in two.
//!
//! Whether a node is to be split is seen only once the actor writes it. There are at most 4,096 nodes, so none is made
//! if it is no longer needed, for example because another actor has split the node meanwhile.
//!
//! However a job ends, its actor has nothing afterwards.
#![tactic(auto)]

mod child;
mod grown;
mod root;

pub use child::split_child;
pub use grown::Grown;
pub use root::raise_root;

#[cfg(test)]
mod tests;
