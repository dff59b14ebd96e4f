//! The steps of a descent over a span of keys: to the root, from a node to its child, and the end.
//!
//! Each step is retried while it is refused. A descent has the place of its beginning: what is known of a key at a node
//! stays true for that place while others make their steps, since the node is latched (`specs/Descending.antt`). How
//! many turns a descent takes, and which branches it is given, is said of the list of its turns
//! (`specs/Arrivals.antt`).
#![tactic(auto)]

mod down;
mod stop;

pub use down::{begin, descend, end};
pub use stop::{Stopped, abandon};
