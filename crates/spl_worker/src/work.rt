/// What a piece of work was.
#[derive(Clone, Copy, Debug, PartialEq, Eq)]
pub enum Work {
    /// A frozen memtable was packed, and its branch hangs at the root.
    Packed,
    /// Bundles of a node were flushed to one of its children.
    Flushed,
    /// Bundles of a node were merged into one.
    Compacted,
    /// Other actors are doing the work that was found, or have done it.
    Stale,
    /// The root was raised, or a node was split.
    Split,
    /// There is nothing to do, and so many callers still run.
    Idle { running: u32 },
}
