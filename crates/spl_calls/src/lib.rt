//! A merge law by two closures of the caller.
//!
//! The closures are kept beside a law that says what they answer. Its rule is the rule of the callbacks; its code is
//! never called. `Callbacks::new` requires that the closures answer by this rule, and then the callbacks are `ready`,
//! as the calls that use a law require.
#![tactic(auto)]

mod callbacks;

pub use callbacks::Callbacks;

#[cfg(test)]
mod tests;
