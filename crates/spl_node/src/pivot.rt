ghost use Rattle.std.specs.Prelude.{◌≡◌};
ghost use Rattle.spl_message.specs.Span.{is_from};
ghost use Rattle.spl_node.specs.Node.{is_past};

use spl_message::Key;
use std::error::Error;
use std::fmt;

/// A part of a node's range, from its start to the start of the next pivot.
#[derive(Clone, Copy, Debug, Default, PartialEq, Eq)]
pub struct Pivot {
    /// The first key of the part, or `None` where the part is open below.
    pub start: Option<Key>,
    /// The number of the node that the part leads to. A leaf's pivot has none.
    pub child: Option<u32>,
    /// The number of the first bundle that is live for the part.
    pub mark: u64,
}

impl Pivot {
    /// Whether the pivot starts at the key or below it.
    pub(crate) fn starts_by(&self, key: &Key) -> bool
        ensures { result ≡ is_from self.now.start key.now }
    {
        match &self.start {
            Some(start) => !(key < start),
            None => true,
        }
    }

    /// Whether the pivot starts below the key.
    pub(crate) fn starts_below(&self, key: &Key) -> bool
        ensures { result ≡ is_past self.now.start key.now }
    {
        match &self.start {
            Some(start) => start < key,
            None => true,
        }
    }
}

/// A node has as many pivots as it may have.
#[derive(Clone, Copy, Debug, PartialEq, Eq, Hash)]
pub struct Pivots {
    pub pivots: u32,
}

impl fmt::Display for Pivots {
    fn fmt<W: fmt::Write>(&self, f: &mut fmt::Formatter<W>) -> fmt::Result {
        write!(f, "there are {} pivots already", self.pivots)
    }
}

impl Error for Pivots {}
