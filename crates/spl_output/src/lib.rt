//! A branch is built in extents that are granted only when the next page needs one.
//!
//! The builder writes a page if it has an extent for it, and else asks for one. Only then a step of the core is made,
//! which grants one to the actor. So the branch lies in the extents that were granted, in the order of the grants, as
//! its publication asks.
#![tactic(auto)]

mod build;

pub use build::{add, finish};
