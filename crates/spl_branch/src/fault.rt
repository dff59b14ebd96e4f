ghost use Rattle.std.specs.Prelude.{◌≡◌};
ghost use Rattle.spl_branch.specs.Faults.{of_fetch};
ghost use Rattle.spl_branch.specs.declared.fault.BranchFault.TheVariants.{NoMemory as out_of_memory};

use spl_message::NoMemory;
use spl_pager::FetchFault;
use spl_port::Damaged;
use std::error::Error;
use std::fmt;

/// Why a lookup in a branch failed.
#[derive(Clone, Copy, Debug, PartialEq, Eq)]
pub enum BranchFault {
    /// The device failed.
    Fault,
    /// The device gave bytes that are not the branch's page.
    Damaged(Damaged),
    /// Memory ran out, or the port's count of reads is at its greatest value.
    NoMemory,
}

impl fmt::Display for BranchFault {
    fn fmt<W: fmt::Write>(&self, f: &mut fmt::Formatter<W>) -> fmt::Result {
        match self {
            BranchFault::Fault => write!(f, "{}", FetchFault::Failed),
            BranchFault::Damaged(damaged) => write!(f, "{damaged}"),
            BranchFault::NoMemory => write!(f, "{NoMemory}"),
        }
    }
}

impl Error for BranchFault {}

impl From<FetchFault> for BranchFault {
    ghost from_gives = { λ fault e. e ≡ of_fetch fault };

    fn from(fault: FetchFault) -> BranchFault {
        match fault {
            FetchFault::Failed => BranchFault::Fault,
            FetchFault::Damaged(damaged) => BranchFault::Damaged(damaged),
            FetchFault::NoMemory => BranchFault::NoMemory,
        }
    }
}

impl From<NoMemory> for BranchFault {
    ghost from_gives = { λ _ e. e ≡ out_of_memory };

    fn from(_: NoMemory) -> BranchFault {
        BranchFault::NoMemory
    }
}
