use crate::At;
use std::error::Error;
use std::fmt;

/// Why bytes are no page for a place. Where several reasons hold, the first one here is told.
#[derive(Clone, Copy, Debug, PartialEq, Eq)]
pub enum Why {
    /// The first byte is not that of the kind that is wanted, or the format is another.
    Kind,
    /// The page's or the branch's number is another.
    Number,
    /// There are no entries.
    Count,
    /// An entry reaches past the page, or one of its fields is out of range.
    Entry,
    /// Two keys that follow each other do not rise.
    Order,
    /// A byte after the last entry is not zero.
    Rest,
}

impl fmt::Display for Why {
    fn fmt<W: fmt::Write>(&self, f: &mut fmt::Formatter<W>) -> fmt::Result {
        match self {
            Why::Kind => write!(f, "another kind of page"),
            Why::Number => write!(f, "another page's number"),
            Why::Count => write!(f, "no entries"),
            Why::Entry => write!(f, "an entry that is cut off or out of range"),
            Why::Order => write!(f, "keys that do not rise"),
            Why::Rest => write!(f, "bytes behind the last entry"),
        }
    }
}

/// A page that a port gave is none for its place.
#[derive(Clone, Copy, Debug, PartialEq, Eq)]
pub struct Damaged {
    pub at: At,
    pub why: Why,
}

impl fmt::Display for Damaged {
    fn fmt<W: fmt::Write>(&self, f: &mut fmt::Formatter<W>) -> fmt::Result {
        let page = self.at.page;
        let branch = self.at.branch;
        let extent = self.at.extent;
        let why = self.why;
        write!(
            f,
            "page {page} of branch {branch}, in extent {extent}, has {why}"
        )
    }
}

impl Error for Damaged {}
