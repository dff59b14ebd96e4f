ghost use Rattle.std.specs.Prelude.{◌≡◌};
ghost use Rattle.spl_build.specs.Fault.{build_fault};
ghost use Rattle.spl_build.specs.declared.fault.BuildFault.TheVariants.{NoMemory as WantOfMemory};

use spl_message::NoMemory;
use spl_port::PortFault;
use std::alloc::{AllocError, AllocFailed};
use std::error::Error;
use std::fmt;

/// Why a branch can't be built.
#[derive(Clone, Copy, Debug, PartialEq, Eq)]
pub enum BuildFault {
    /// The device failed.
    Fault,
    /// Memory ran out, or the port's count of writes is at its greatest value.
    NoMemory,
}

impl fmt::Display for BuildFault {
    fn fmt<W: fmt::Write>(&self, f: &mut fmt::Formatter<W>) -> fmt::Result {
        match self {
            BuildFault::Fault => write!(f, "{}", PortFault::Failed),
            BuildFault::NoMemory => write!(f, "{NoMemory}"),
        }
    }
}

impl Error for BuildFault {}

impl From<PortFault> for BuildFault {
    ghost from_gives = { λ fault e. e ≡ build_fault fault };

    fn from(fault: PortFault) -> BuildFault {
        match fault {
            PortFault::Failed => BuildFault::Fault,
            PortFault::NoMemory => BuildFault::NoMemory,
        }
    }
}

impl From<NoMemory> for BuildFault {
    ghost from_gives = { λ _ e. e ≡ WantOfMemory };

    fn from(_: NoMemory) -> BuildFault {
        BuildFault::NoMemory
    }
}

impl From<AllocError> for BuildFault {
    ghost from_gives = { λ _ e. e ≡ WantOfMemory };

    fn from(_: AllocError) -> BuildFault {
        BuildFault::NoMemory
    }
}

impl<T: Drop> From<AllocFailed<T>> for BuildFault {
    ghost from_gives = { λ _ e. e ≡ WantOfMemory };

    fn from(_: AllocFailed<T>) -> BuildFault {
        BuildFault::NoMemory
    }
}
