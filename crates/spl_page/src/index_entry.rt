use spl_message::Key;

/// A child of an index page.
#[derive(Clone, Copy, Debug, PartialEq, Eq)]
pub struct IndexEntry {
    /// The number of the child's page in the branch.
    pub child: u32,
    /// The first key under the child.
    pub first: Key,
}
