//! The state of a store: the trunk, the branches that its nodes refer to, the latches, the extents, the memtables, and
//! the descent and job of each actor. The steps of the core change it, and each of them requires and keeps the
//! invariant that is defined here (`specs/Sound.antt`).
//!
//! The invariant: the trunk is a tree; each reference to a branch is counted, and a branch with references holds its
//! extents; latches exclude each other; the memtables are in order; an actor with a descent reads its node and nothing
//! else, and a job has its table or its run; a mark is that of a run. What a step may change for other actors is in
//! `specs/Sight.antt`: nothing that they rely on.
//!
//! Lower crates keep each part right by itself; what ties them together is here.
//!
//! In a clause the state is plain data (`specs/Whole.antt`), so that the definitions and their lemmas know nothing of
//! devices.
#![tactic(auto)]

mod actor;
mod counters;
mod descent;
mod job;
mod names;
mod parts;
mod reply;
mod sight;
mod view;

pub use actor::{Actor, Actors};
pub use counters::Counters;
pub use descent::Descent;
pub use job::{Inputs, Job, Run};
pub use names::{let_go, let_go_all};
pub use parts::Parts;
pub use reply::{ActorState, Reply};
pub use sight::{Branches, Sight, Ticket};
pub use view::{BundleView, BundleViews, PivotList, View};
