ghost use Rattle.std.specs.Prelude.{◌≡◌, ◌%◌, ◌<◌, ◌↔◌, IsTrue};
ghost use Rattle.counted_slot.specs.Counting.{readers};

use crate::word::is_readable;
use std::error::Error;
use std::fmt;

/// The latch is held by others: the exchange met this word, and not the one that it asked for.
#[derive(Clone, Copy, Debug, PartialEq, Eq)]
pub struct Found {
    pub word: u64,
}

impl Found {
    /// Whether the value could be read under that word, so that a read may succeed if it is tried again at once:
    /// another reader came or left in between.
    pub fn is_readable(&self) -> bool
        ensures { IsTrue result ↔ (self.now.word % 4 ≡ 1) × (readers self.now.word < 1073741823) }
    {
        is_readable(self.word)
    }
}

impl fmt::Display for Found {
    fn fmt<W: fmt::Write>(&self, f: &mut fmt::Formatter<W>) -> fmt::Result {
        write!(f, "the latch is held by others")
    }
}

impl Error for Found {}
