use std::error::Error;
use std::fmt;

/// A call to the outside failed. The reason is unknown.
#[derive(Clone, Copy, Debug, PartialEq, Eq)]
pub struct Failed;

impl fmt::Display for Failed {
    fn fmt<W: fmt::Write>(&self, f: &mut fmt::Formatter<W>) -> fmt::Result {
        write!(f, "the outside failed")
    }
}

impl Error for Failed {}
