//! A worker's job that merges: the bundles of a node from one up to another become one branch, which replaces them.
//!
//! A ticket gives the actor the run and its branches. They are merged entry by entry into a new one, page by page, in
//! extents that are granted only when the next page needs one; other actors go on meanwhile. Then the branch is
//! published, and replaces the run in each node that has it, one node after the other: the node may have been split
//! since. If the merge leaves nothing, for example only deletes at the bottom of the trunk, no branch is made and the
//! run is dropped.
//!
//! A job that stops gives back all that its actor has, so the run can be merged again.
#![tactic(auto)]

mod compacted;
mod compaction;
mod merging;
mod placing;

pub use compacted::Compacted;
pub use compaction::compact;

#[cfg(test)]
mod tests;
