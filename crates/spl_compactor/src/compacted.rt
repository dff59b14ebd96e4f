/// The result of merging a run of bundles.
#[derive(Clone, Copy, Debug, PartialEq, Eq)]
pub enum Compacted {
    /// The merged branch, or nothing, has replaced the run.
    Done,
    /// No node has the run any more.
    Stale,
    /// Not all of the bundles are there.
    Gone,
    /// Some of the bundles are live for a child, and some are not.
    Crossed,
    /// One of the bundles is being merged by another actor.
    Busy,
}
