use spl_base::NoMemory;
use std::alloc::AllocFailed;
use std::error::Error;
use std::fmt;

/// Why a trunk takes no further node.
#[derive(Clone, Copy, Debug, PartialEq, Eq, Hash)]
pub enum Grow {
    /// There are as many nodes as there may be.
    Nodes { nodes: u32 },
    /// Memory ran out.
    NoMemory,
}

impl fmt::Display for Grow {
    fn fmt<W: fmt::Write>(&self, f: &mut fmt::Formatter<W>) -> fmt::Result {
        match self {
            Grow::Nodes { nodes } => write!(f, "there are {nodes} nodes already"),
            Grow::NoMemory => write!(f, "{}", NoMemory),
        }
    }
}

impl Error for Grow {}
