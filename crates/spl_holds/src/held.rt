ghost use Rattle.std.specs.Prelude.{◌++◌, codes, decimal, Some};

use std::error::Error;
use std::fmt;

/// Another actor's grip forbids what was asked.
#[derive(Clone, Copy, Debug, PartialEq, Eq, Hash)]
pub struct Held {
    /// That actor.
    pub by: u32,
}

impl fmt::Display for Held {
    ghost output = { λ held. Some (codes "held by actor " ++ decimal held.by) };

    fn fmt<W: fmt::Write>(&self, f: &mut fmt::Formatter<W>) -> fmt::Result {
        let by = self.by;
        write!(f, "held by actor {by}")
    }
}

impl Error for Held {}
