use crate::sight::{Sight, Ticket};
use crate::view::View;
use spl_memtable::Slice;
use spl_message::Content;

/// What an actor has, as the refusal `Unfit` shows it.
#[derive(Clone, Copy, Debug, PartialEq, Eq)]
pub struct ActorState {
    pub descent: bool,
    pub job: bool,
    /// How many extents it was granted and has not published.
    pub granted: u32,
    pub published: bool,
    pub reads: u32,
    pub claims: u32,
    pub writes: u32,
}

/// The answer to a step. Those from `Unfit` on are refusals, which change nothing but the count of steps.
#[derive(Drop)]
pub enum Reply<B: Content> {
    Done,
    /// The put has this place in the history of all calls.
    Placed { place: u64 },
    /// The active memtable is frozen, and a new one is empty.
    Rotated,
    /// A descent has come to a node.
    Sight(Sight<B>),
    /// The oldest frozen memtable that nobody had picked, for a branch with a new number.
    Picked { number: u64, table: Slice },
    /// The extent is the actor's.
    Granted { extent: u32 },
    /// The run of bundles carries the actor's mark.
    Ticket(Ticket<B>),
    /// Another node still holds the run.
    Next { node: u32 },
    View(View),
    /// So many callers still run.
    Retired { running: u32 },

    /// The actor's own state is not the one that the step needs.
    Unfit { state: ActorState },
    /// There is no such node: only so many exist.
    NoNode { nodes: u32 },
    /// Another actor's grip on the node forbids it.
    Again { node: u32, by: u32 },
    /// The node does not hold the run; the lowest-numbered node that does.
    Elsewhere { next: Option<u32> },
    /// The run is empty, or not all of it is there. With its last number, and the node's first bundle.
    Gone { last: u64, oldest: u64 },
    /// No pivot of the parent leads to the child.
    Moved { child: u32 },
    /// The key is no split point of the node.
    Outside,
    /// The mark of the pivot to this child is inside the run.
    Crossed { child: Option<u32>, mark: u64 },
    /// A bundle of the run carries this actor's mark.
    Busy { by: u32 },
    /// This older frozen memtable comes first. With the actor that picked it, if any.
    NotOldest { oldest: u64, by: Option<u32> },
    /// The active memtable has 1,024 other keys.
    MemFull,
    /// The active memtable has fewer than 1,024 keys.
    NotFull,
    /// Four memtables are frozen.
    FrozenFull,
    /// The descent is at a leaf.
    Leaf,
    /// There is no frozen memtable that nobody picked.
    Nothing,
    /// No extent is free.
    NoExtent,
    /// The root has 24 bundles.
    NeedsFlush,
    /// The child has 24 bundles.
    NeedsRoom,
    /// The list to be flushed has more than 32 branches.
    NeedsCompact { branches: u32 },
    /// The parent has 16 pivots.
    Pivots { pivots: u32 },
    /// 4,096 nodes exist.
    Nodes { nodes: u32 },
    NoMemory,
}
