//! What workers do over a desk: they make room in the memtables and in the nodes of the trunk.
//!
//! A worker goes down the trunk from the node that needs room. The bundles of a full leaf are merged into one; a node
//! with children flushes to the child that has waited longest, and a child that is full or too big is handled first.
//! The trunk grows on the way: a root that is too big is raised, and any other node that is too big is split.
//!
//! A piece of work makes no call that has a place, and leaves its actor with nothing, however it ends. Between two
//! steps others may make theirs, so each look at a node is only a hint: what a step asks for is checked again when it
//! is made.
#![tactic(auto)]

mod look;
mod memtable_room;
mod merge;
mod node_room;
mod passing;
mod plan;
mod relief;
mod relieving;
mod run;
mod wide;
mod work;
mod working;

pub use memtable_room::make_memtable_room;
pub use node_room::make_room;
pub use work::Work;
pub use working::work_once;

#[cfg(test)]
mod tests;
