//! A branch: a sorted table of messages in pages on a device, written once and sealed.
//!
//! Leaf pages come first, in the order of their keys, then index pages, level by level; the last page is the root. Page
//! i is in the branch's extent number i / 32, at place i % 32. In memory a branch has its number, its extents with a
//! seal for each, its counts, the keys where it may be cut, and the filter over its keys.
//!
//! A lookup (`get`) asks the filter, and then goes from the root down to one leaf page. A scan starts at the leaf page
//! that `seek` names, and reads leaf pages by their numbers (`leaf`). Pages come from a `Pager`, checked and shared,
//! and only the message that is answered is copied.
//!
//! Where the device tells its pages, a branch is its table (`specs/Branch.antt`). On every device a lookup ends, since
//! a child's number is below that of its page, and its answer is decided by pages that the pager gave in that call
//! (`specs/Path.antt`).
#![tactic(auto)]

mod branch;
mod fault;
mod get;
mod pages;
mod seek;
mod visit;
mod walk;

pub use branch::{Branch, Parts};
pub use fault::BranchFault;

#[cfg(test)]
mod tests;
