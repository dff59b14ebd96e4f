use spl_message::{Content, Key, Message, Span};
use std::sync::Arc;

/// What an actor asks of the core.
#[derive(Drop)]
pub enum Step<B: Content> {
    /// Adds the message to what the key has.
    Put { key: Key, message: Message },
    /// Freezes the active memtable, where it is full.
    Rotate,
    /// Begins a descent for the keys of the span, at the root.
    Begin { span: Span },
    /// Goes on to the child.
    MoveDown,
    /// Ends the descent.
    End,
    /// Takes a claim on the node.
    Claim { node: u32 },
    /// Makes the claim on the node a write.
    Lock { node: u32 },
    /// Ends the claim or write on the node.
    Unlock { node: u32 },
    /// Picks the oldest frozen memtable that nobody picked, to pack it.
    PickFrozen,
    /// Asks for a free extent.
    Grant,
    /// Publishes the branch of the job.
    Publish { branch: Arc<B> },
    /// Hangs the published branch at the root, in the place of its memtable.
    Incorporate,
    /// Passes on to the child what is live for it in the parent.
    Flush { parent: u32, child: u32 },
    /// Asks for the bundles of the node from `first` up to `last`, to merge them.
    Start { node: u32, first: u64, last: u64 },
    /// Puts what was merged in the place of its run in the node. `output` says whether a branch was published.
    Install { node: u32, output: bool },
    /// Raises the root: the trunk is one higher.
    Raise,
    /// Splits the child in two at the key.
    Split { parent: u32, child: u32, key: Key },
    /// Asks what the node holds.
    Survey { node: u32 },
    /// Gives back all that the actor has.
    Abandon,
    /// Counts one running caller less.
    Retire,
}
