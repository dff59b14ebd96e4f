ghost use Rattle.std.specs.Prelude.{◌≡◌};
ghost use Rattle.spl_pager.specs.Faults.{of_page, of_port};
ghost use Rattle.spl_pager.specs.declared.fault.FetchFault.TheVariants.{NoMemory as out_of_memory};

use spl_message::NoMemory;
use spl_page::PageFault;
use spl_port::{Damaged, PortFault};
use std::alloc::AllocFailed;
use std::error::Error;
use std::fmt;

/// Why `fetch` failed.
#[derive(Clone, Copy, Debug, PartialEq, Eq)]
pub enum FetchFault {
    /// The device failed.
    Failed,
    /// The device gave bytes that are not the page of the place.
    Damaged(Damaged),
    /// Memory ran out, or the port's count of reads is at its greatest value.
    NoMemory,
}

impl fmt::Display for FetchFault {
    fn fmt<W: fmt::Write>(&self, f: &mut fmt::Formatter<W>) -> fmt::Result {
        match self {
            FetchFault::Failed => write!(f, "{}", PortFault::Failed),
            FetchFault::Damaged(damaged) => write!(f, "{damaged}"),
            FetchFault::NoMemory => write!(f, "{NoMemory}"),
        }
    }
}

impl Error for FetchFault {}

impl From<PortFault> for FetchFault {
    ghost from_gives = { λ fault e. e ≡ of_port fault };

    fn from(fault: PortFault) -> FetchFault {
        match fault {
            PortFault::Failed => FetchFault::Failed,
            PortFault::NoMemory => FetchFault::NoMemory,
        }
    }
}

impl From<PageFault> for FetchFault {
    ghost from_gives = { λ fault e. e ≡ of_page fault };

    fn from(fault: PageFault) -> FetchFault {
        match fault {
            PageFault::Damaged(damaged) => FetchFault::Damaged(damaged),
            PageFault::NoMemory => FetchFault::NoMemory,
        }
    }
}

impl<T: Drop> From<AllocFailed<T>> for FetchFault {
    ghost from_gives = { λ _ e. e ≡ out_of_memory };

    fn from(_: AllocFailed<T>) -> FetchFault {
        FetchFault::NoMemory
    }
}
