//! The survey of a node: a worker sees the node's height, pivots, bundles and marks, and the key at which the node is
//! to be split, and decides by that what to do there. Nothing stays latched, so a view is only a hint: the steps that
//! follow check for themselves.
#![tactic(auto)]

mod show;
mod split;

pub use show::survey;
