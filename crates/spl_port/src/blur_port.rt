ghost use Rattle.std.specs.Prelude.{◌≡◌, ◌≢◌, ◌+◌, ◌<◌, ◌≤◌, ◌^◌, [], ◌∷◌, ◌++◌, false, IfOk, OnOk, OnErr, Some};
ghost use Rattle.std.specs.List.{slice_index_or};
ghost use Rattle.spl_port.specs.Blur.{IsBlur, blurred_page};
ghost use Rattle.spl_port.specs.Counts.{IsSpent, no_counts};
ghost use Rattle.spl_port.specs.MemDraft.{meaning};
ghost use Rattle.spl_port.specs.Port.{HasCause, MovesNone, ReadsOne, WritesOne};
ghost use Rattle.spl_port.specs.Seal.{Allows, with_page, empty_draft, page_count, place};

use crate::blur::Blur;
use crate::blur_seal::BlurSeal;
use crate::mem_draft::MemDraft;
use crate::tally::Tally;
use crate::{PAGE_BYTES, PageBytes, Port, PortFault, Seal};
use std::alloc::Global;
use std::marker::Model;

/// A device in memory that never fails, does not tell its pages, and may give other bytes than were
/// written.
///
/// In a clause it is its counts, and what its reads give.
#[derive(Debug, Drop)]
pub struct BlurPort {
    alloc: Global,
    blur: Blur,
    tally: Tally,
}

impl Model for BlurPort {
    ghost use Rattle.spl_port.specs.Blur.{BlurState, IsBlur};

    ghost Value = { BlurState };

    ghost view = { λ p. record { counts = p.tally; blur = p.blur } };

    ghost invariant = { λ p. IsBlur p.blur };
}

impl BlurPort {
    /// A device whose reads give this in place of the pages.
    pub fn new(alloc: Global, blur: Blur) -> BlurPort
        requires { IsBlur blur }
        ensures { result ≡ record { counts = no_counts; blur = blur } }
    {
        BlurPort {
            alloc,
            blur,
            tally: Tally::new(),
        }
    }
}

impl Port for BlurPort {
    type Draft = MemDraft;

    type Seal = BlurSeal;

    ghost counts = { λ p. p.counts };

    ghost drafts = { λ d. meaning false d };

    fn begin(&mut self, extent: u32, branch: u64, first: u32) -> MemDraft
        requires { first < 2 ^ 31 }
        ensures same { self.new ≡ self.old }
        ensures pages { result.pages ≡ [] }
        ensures begun { meaning false result ≡ empty_draft false extent branch first }
        ensures counts { self.new.counts ≡ self.old.counts }
    {
        MemDraft::new(self.alloc, extent, branch, first)
    }

    fn append(&mut self, draft: &mut MemDraft, bytes: &[u8; PAGE_BYTES]) -> Result<(), PortFault>
        requires { page_count (meaning false draft.old) < 32 }
        ensures never_fails { result ≢ Err PortFault.Failed }
        ensures pages { OnOk result (draft.new.pages ≡ draft.old.pages ++ bytes.now ∷ []) }
        ensures after_ok { OnOk result (self.new ≡ record self.old {
          counts = record self.old.counts { writes = self.old.counts.writes + 1 };
        }) }
        ensures after_err { OnErr result (self.new ≡ self.old) }

        // What each port keeps.
        ensures ok { OnOk result (meaning false draft.new ≡ with_page (meaning false draft.old) bytes.now) }
        ensures err { OnErr result (meaning false draft.new ≡ meaning false draft.old) }
        ensures counts { WritesOne self.old.counts self.new.counts }
        ensures ok_count { OnOk result (self.new.counts.writes ≡ self.old.counts.writes + 1) }
        ensures ok_faults { OnOk result (self.new.counts.faults ≡ self.old.counts.faults) }
        ensures spent { IsSpent self.old.counts.writes → result ≡ Err PortFault.NoMemory }
        ensures cause { HasCause self.old.counts self.new.counts result }
    {
        if !self.tally.can_write() {
            return Err(PortFault::NoMemory);
        }
        draft.push(PageBytes::copy(self.alloc, bytes)?)?;
        self.tally.write();
        Ok(())
    }

    /// It always succeeds.
    fn seal(&mut self, draft: MemDraft) -> Result<BlurSeal, PortFault>
        ensures always { result ≡ Ok draft }
        ensures same { self.new ≡ self.old }

        // What each port keeps.
        ensures ok { IfOk result (λ seal. meaning false seal ≡ meaning false draft) }
        ensures ok_faults { OnOk result (self.new.counts.faults ≡ self.old.counts.faults) }
        ensures counts { MovesNone self.old.counts self.new.counts }
        ensures cause { HasCause self.old.counts self.new.counts result }
    {
        Ok(BlurSeal::new(draft))
    }

    /// What the blur makes of the page.
    fn read(&mut self, seal: &BlurSeal, page: u32) -> Result<PageBytes, PortFault>
        requires { page < page_count (meaning false seal.now) }
        ensures never_fails { result ≢ Err PortFault.Failed }
        ensures given { IfOk result (λ bytes.
            bytes ≡ blurred_page self.old.blur page (slice_index_or seal.now.pages page [])) }
        ensures same { self.new.blur ≡ self.old.blur }
        ensures after_err { OnErr result (self.new ≡ self.old) }

        // What each port keeps.
        ensures ok { IfOk result (λ bytes. Allows (meaning false seal.now) page bytes) }
        ensures last { IfOk result (λ bytes. self.new.counts.last
            ≡ Some (record { at = place (meaning false seal.now) page; bytes = bytes })) }
        ensures err { OnErr result (self.new.counts.last ≡ self.old.counts.last) }
        ensures counts { ReadsOne self.old.counts self.new.counts }
        ensures ok_count { OnOk result (self.new.counts.reads ≡ self.old.counts.reads + 1) }
        ensures ok_faults { OnOk result (self.new.counts.faults ≡ self.old.counts.faults) }
        ensures spent { IsSpent self.old.counts.reads → result ≡ Err PortFault.NoMemory }
        ensures cause { HasCause self.old.counts self.new.counts result }
    {
        if !self.tally.can_read() {
            return Err(PortFault::NoMemory);
        }
        let bytes = self.blur.apply(self.alloc, page, seal.stack().page(page))?;
        self.tally.read(seal.at(page), bytes.bytes());
        Ok(bytes)
    }

    fn writes(&self) -> u64 {
        self.tally.writes()
    }
}
