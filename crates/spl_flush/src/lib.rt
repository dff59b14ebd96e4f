//! The step that flushes: references to branches move down the trunk. What is live in a node for one of its children
//! becomes the child's newest bundle, and is no longer live in the node for that child.
//!
//! No branch is read or written. A branch may still be live for other children, so the child's references are added
//! before the node drops the bundles that are live for no pivot any more. The step takes no memory. The actor has to
//! write both nodes. It is refused if the child has 24 bundles (`NeedsRoom`), or if the list has more than 32 branches
//! (`NeedsCompact`).
#![tactic(auto)]

mod names;
mod step;

pub use step::flush;
