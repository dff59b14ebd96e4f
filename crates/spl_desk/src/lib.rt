//! Holders of turns: whoever makes steps of a core, alone or among others, one at a time.
//!
//! A call of the store is a loop over such steps. Between two steps of a holder others may make theirs; what the holder
//! relies on stays as it was, and the history that it has seen only grows (`specs/Turn.antt`). What a whole call did is
//! the list of its turns (`specs/Walk.antt`), which exists in proofs alone. A holder is spent at 2^40 steps, so that
//! counts never overflow.
#![tactic(auto)]

mod desk;
mod fault;
mod turns;

pub use desk::Desk;
pub use fault::CallFault;
pub use turns::{Exchange, Turns, take_turn};
