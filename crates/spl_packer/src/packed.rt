/// The result of packing a memtable.
#[derive(Clone, Copy, Debug, PartialEq, Eq)]
pub enum Packed {
    /// Its branch hangs at the root.
    Done,
    /// No frozen memtable waits to be picked.
    Nothing,
    /// The root has as many bundles as it can have.
    NeedsFlush,
    /// An older frozen memtable waits to be picked.
    NotOldest,
}
