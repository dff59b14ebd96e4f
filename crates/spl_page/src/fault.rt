ghost use Rattle.std.specs.Prelude.{◌≡◌};
ghost use Rattle.spl_page.specs.declared.fault.PageFault.TheVariants.{NoMemory as WantOfMemory};

use spl_message::NoMemory;
use spl_port::Damaged;
use std::alloc::AllocError;
use std::error::Error;
use std::fmt;

/// Why a page can't be read.
#[derive(Clone, Copy, Debug, PartialEq, Eq)]
pub enum PageFault {
    /// The bytes are not the page of the place.
    Damaged(Damaged),
    /// Memory ran out.
    NoMemory,
}

impl fmt::Display for PageFault {
    fn fmt<W: fmt::Write>(&self, f: &mut fmt::Formatter<W>) -> fmt::Result {
        match self {
            PageFault::Damaged(damaged) => write!(f, "{damaged}"),
            PageFault::NoMemory => write!(f, "{NoMemory}"),
        }
    }
}

impl Error for PageFault {}

impl From<NoMemory> for PageFault {
    ghost from_gives = { λ _ e. e ≡ WantOfMemory };

    fn from(_e: NoMemory) -> PageFault {
        PageFault::NoMemory
    }
}

impl From<AllocError> for PageFault {
    ghost from_gives = { λ _ e. e ≡ WantOfMemory };

    fn from(_e: AllocError) -> PageFault {
        PageFault::NoMemory
    }
}
