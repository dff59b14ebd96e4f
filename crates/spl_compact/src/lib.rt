//! The steps of a merge: an actor takes a run of bundles of a node (`start`), and later replaces them by the branch
//! that it made of them (`install`). In between the node may be split or raised; the marks of the run are copied with
//! its bundles, and each node that has them is served in a step of its own.
//!
//! Each step is one function. Its contract says which cause decides its answer, in a fixed order, what it makes of the
//! state, and what it keeps for all other actors.
#![tactic(auto)]

mod begin;
mod heirs;
mod merging;
mod names;
mod refusal;
mod serve;

pub use begin::start;
pub use serve::install;
