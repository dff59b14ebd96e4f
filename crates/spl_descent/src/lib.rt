//! The steps of a descent: a lookup, or a piece of a scan, goes from the root down to a leaf, and reads one
//! node at a time.
//!
//! Each step is one function. Its contract says which cause decides its answer, in a fixed order, what it makes of the
//! state, what it keeps for all other actors, and what the sight that it returns says of the keys asked for. A descent
//! has one place in the history of all calls, that of its beginning. Its node stays latched until it has the child, so
//! what was said of the keys at its place stays right on the path down, whatever other actors do meanwhile.
#![tactic(auto)]

mod enter;
mod leave;
mod lower;
mod seen;
#[cfg(test)]
mod tests;

pub use enter::begin;
pub use leave::end;
pub use lower::move_down;
