//! The core: the state of a store with its merge law, and one call that makes a step.
//!
//! Whoever makes the steps, in whatever order, the core stands for the history of the calls that were answered a place:
//! it means for each key what the writes of that history leave of it (`specs/Standing.antt`). A put gets its place when
//! it is in the memtable; a lookup, and a piece of a scan, when its descent begins.
//!
//! The steps are functions of lower crates; `Core::step` counts each one, makes it, and says in one relation what it
//! answered and made of the state (`specs/Steps.antt`). No lock is in here: a core makes one step at a time, and
//! whoever shares one takes turns (`spl_desk`).
#![tactic(auto)]

mod engine;
mod leaves;
#[cfg(test)]
mod random;
#[cfg(test)]
mod rows;
mod step;
#[cfg(test)]
mod tests;

pub use engine::Core;
pub use step::Step;
