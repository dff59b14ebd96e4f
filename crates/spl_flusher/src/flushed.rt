/// The result of a flush to a child.
#[derive(Clone, Copy, Debug, PartialEq, Eq)]
pub enum Flushed {
    /// What was live for the child is its newest bundle.
    Done,
    /// The child has as many bundles as it can have.
    NeedsRoom,
    /// The bundle would have so many branches, more than one can have.
    NeedsCompact { branches: u32 },
    /// The parent does not lead to the child.
    Moved,
    /// Another actor's latch on one of the two nodes was in the way.
    Busy,
}
