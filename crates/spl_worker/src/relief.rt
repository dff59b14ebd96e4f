/// The result of one piece of work that is to give a node room.
#[derive(Clone, Copy, Debug, PartialEq, Eq)]
pub(crate) enum Relief {
    /// The node was seen with fewer bundles than were asked about. So many callers still ran.
    Room { running: u32 },
    /// First this child of the node needs room.
    Below { child: u32 },
    /// The root was raised, or a child was split.
    Grown,
    /// Bundles were flushed to a child.
    Flushed,
    /// Bundles were merged into one branch.
    Compacted,
    /// Other actors are doing the work that was found, or have done it.
    Stale,
}
