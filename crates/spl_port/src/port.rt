ghost use Rattle.std.specs.Prelude.{◌≡◌, ◌+◌, ◌<◌, ◌^◌, Some, IfOk, OnOk, OnErr, length};
ghost use Rattle.spl_port.specs.Counts.{Counts, IsSpent};
ghost use Rattle.spl_port.specs.Port.{HasCause, MovesNone, ReadsOne, WritesOne};
ghost use Rattle.spl_port.specs.Seal.{Sealed, Allows, with_page, empty_draft, page_count, place};
ghost use Rattle.spl_port.specs.declared.port.PortFault.TheVariants.{NoMemory as out_of_memory};

use crate::{PAGE_BYTES, PageBytes, Seal};
use spl_base::NoMemory;
use std::alloc::{AllocError, AllocFailed};
use std::error::Error;
use std::fmt;

/// Why a port refused a call.
#[derive(Clone, Copy, Debug, PartialEq, Eq)]
pub enum PortFault {
    /// The device failed.
    Failed,
    /// Memory ran out, or a count is at its greatest value.
    NoMemory,
}

impl fmt::Display for PortFault {
    fn fmt<W: fmt::Write>(&self, f: &mut fmt::Formatter<W>) -> fmt::Result {
        match self {
            PortFault::Failed => write!(f, "the device failed"),
            PortFault::NoMemory => write!(f, "out of memory"),
        }
    }
}

impl Error for PortFault {}

impl From<NoMemory> for PortFault {
    ghost from_gives = { λ _ e. e ≡ out_of_memory };

    fn from(_: NoMemory) -> PortFault {
        PortFault::NoMemory
    }
}

impl From<AllocError> for PortFault {
    ghost from_gives = { λ _ e. e ≡ out_of_memory };

    fn from(_: AllocError) -> PortFault {
        PortFault::NoMemory
    }
}

impl<T: Drop> From<AllocFailed<T>> for PortFault {
    ghost from_gives = { λ _ e. e ≡ out_of_memory };

    fn from(_: AllocFailed<T>) -> PortFault {
        PortFault::NoMemory
    }
}

/// The device of one thread: it writes drafts page by page, seals them, and reads the pages of seals.
///
/// A port keeps its allocator. None of its counts ever falls. A call that succeeds does not change the count of faults,
/// and one that fails raises it by at most one.
pub trait Port: Drop {
    /// Pages that are still being written.
    type Draft: Drop;

    type Seal: Seal;

    /// How often the port failed, read and wrote, and its latest read that succeeded.
    ghost counts: { Self → Counts };

    /// What a draft holds.
    ghost drafts: { Self.Draft → Sealed };

    /// Begins to write the pages of an extent, which are the branch's pages from `first` on.
    fn begin(&mut self, extent: u32, branch: u64, first: u32) -> Self::Draft
        requires { first < 2 ^ 31 }
        ensures begun { drafts result ≡ empty_draft Self.Seal.TELLS extent branch first }
        ensures counts { counts self.new ≡ counts self.old };

    /// Writes one more page.
    fn append(&mut self, draft: &mut Self::Draft, bytes: &[u8; PAGE_BYTES]) -> Result<(), PortFault>
        requires { page_count (drafts draft.old) < 32 }
        ensures ok { OnOk result (drafts draft.new ≡ with_page (drafts draft.old) bytes.now) }
        ensures err { OnErr result (drafts draft.new ≡ drafts draft.old) }
        ensures counts { WritesOne (counts self.old) (counts self.new) }
        ensures ok_count { OnOk result ((counts self.new).writes ≡ (counts self.old).writes + 1) }
        ensures ok_faults { OnOk result ((counts self.new).faults ≡ (counts self.old).faults) }
        ensures spent { IsSpent (counts self.old).writes → result ≡ Err PortFault.NoMemory }
        ensures cause { HasCause (counts self.old) (counts self.new) result };

    /// Seals the draft. The draft is gone even if the call fails.
    fn seal(&mut self, draft: Self::Draft) -> Result<Self::Seal, PortFault>
        ensures ok { IfOk result (λ seal. Self.Seal.means seal ≡ drafts draft) }
        ensures ok_faults { OnOk result ((counts self.new).faults ≡ (counts self.old).faults) }
        ensures counts { MovesNone (counts self.old) (counts self.new) }
        ensures cause { HasCause (counts self.old) (counts self.new) result };

    /// Reads a page, which is counted from 0.
    fn read(&mut self, seal: &Self::Seal, page: u32) -> Result<PageBytes, PortFault>
        requires { page < page_count (Self.Seal.means seal.now) }
        ensures ok { IfOk result (λ bytes. Allows (Self.Seal.means seal.now) page bytes) }
        ensures last { IfOk result (λ bytes. (counts self.new).last
            ≡ Some (record { at = place (Self.Seal.means seal.now) page; bytes = bytes })) }
        ensures err { OnErr result ((counts self.new).last ≡ (counts self.old).last) }
        ensures counts { ReadsOne (counts self.old) (counts self.new) }
        ensures ok_count { OnOk result ((counts self.new).reads ≡ (counts self.old).reads + 1) }
        ensures ok_faults { OnOk result ((counts self.new).faults ≡ (counts self.old).faults) }
        ensures spent { IsSpent (counts self.old).reads → result ≡ Err PortFault.NoMemory }
        ensures cause { HasCause (counts self.old) (counts self.new) result };

    /// How many pages were written.
    fn writes(&self) -> u64
        ensures { result ≡ (counts self.now).writes };
}
