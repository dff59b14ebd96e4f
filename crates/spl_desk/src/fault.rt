use spl_base::NoMemory;
use spl_port::Damaged;
use std::error::Error;
use std::fmt;

/// Why a call of the store was stopped.
#[derive(Clone, Copy, Debug, PartialEq, Eq)]
pub enum CallFault {
    /// The device failed.
    Fault,
    /// The device gave a page that is none of the branch.
    Damaged(Damaged),
    /// No extent was free.
    Full,
    /// There are as many nodes as there can be.
    Nodes,
    /// The holder has made as many steps as it may.
    Spent { turns: u64 },
    /// Memory ran out.
    NoMemory,
}

impl fmt::Display for CallFault {
    fn fmt<W: fmt::Write>(&self, f: &mut fmt::Formatter<W>) -> fmt::Result {
        match self {
            CallFault::Fault => write!(f, "the device failed"),
            CallFault::Damaged(damaged) => write!(f, "{damaged}"),
            CallFault::Full => write!(f, "no extent is free"),
            CallFault::Nodes => write!(f, "no node is left"),
            CallFault::Spent { turns } => write!(f, "{turns} steps were made"),
            CallFault::NoMemory => write!(f, "{NoMemory}"),
        }
    }
}

impl Error for CallFault {}

impl From<NoMemory> for CallFault {
    ghost use Rattle.std.specs.Prelude.{◌≡◌};
    ghost use Rattle.spl_desk.specs.declared.fault.CallFault.TheVariants.{NoMemory as out_of_memory};

    ghost from_gives = { λ _ e. e ≡ out_of_memory };

    fn from(_: NoMemory) -> CallFault {
        CallFault::NoMemory
    }
}
