ghost use Rattle.std.specs.Prelude.{Some};
ghost use Rattle.spl_bundle.specs.Limit.{limit_text};

use std::error::Error;
use std::fmt;

/// Why a list is not taken.
#[derive(Clone, Copy, Debug, PartialEq, Eq, Hash)]
pub enum Limit {
    /// The queue is full.
    Lists { lists: u32 },
    /// The list has more branches than a bundle may have. The count saturates at `u32::MAX`.
    Branches { branches: u32 },
}

impl fmt::Display for Limit {
    ghost output = { λ limit. Some (limit_text limit) };

    fn fmt<W: fmt::Write>(&self, f: &mut fmt::Formatter<W>) -> fmt::Result {
        match self {
            Limit::Lists { lists } => write!(f, "there are {lists} lists already"),
            Limit::Branches { branches } => write!(f, "a list of {branches} branches is too long"),
        }
    }
}

impl Error for Limit {}
