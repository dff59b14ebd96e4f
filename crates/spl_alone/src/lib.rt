//! A core that one caller has for itself: it makes every step, waits for nobody, and finds the core as it left it.
//! `crates/embed` shows how a program uses it.
#![tactic(auto)]

mod alone;

pub use alone::Alone;
