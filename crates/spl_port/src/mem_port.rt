ghost use Rattle.std.specs.Prelude.{◌≡◌, ◌+◌, ◌<◌, ◌≤◌, ◌^◌, [], true, false, IsTrue, IsErr, IfOk, OnOk, OnErr, Some};
ghost use Rattle.spl_port.specs.Counts.{IsSpent, no_counts, raised_count};
ghost use Rattle.spl_port.specs.MemDraft.{meaning};
ghost use Rattle.spl_port.specs.Port.{HasCause, MovesNone, ReadsOne, WritesOne};
ghost use Rattle.spl_port.specs.Seal.{Allows, with_page, empty_draft, page_count, place};

use crate::calls::Calls;
use crate::mem_draft::MemDraft;
use crate::mem_seal::MemSeal;
use crate::tally::Tally;
use crate::{PAGE_BYTES, PageBytes, Port, PortFault, Seal};
use std::alloc::Global;
use std::marker::Model;

/// A device in memory that tells its pages. Its calls are `append`, `seal` and `read`, of which chosen
/// ones fail.
///
/// In a clause it is its counts, which calls are to fail, and how many were made. That number saturates at 2^64 - 1.
#[derive(Debug, Drop)]
pub struct MemPort {
    alloc: Global,
    calls: Calls,
    made: u64,
    tally: Tally,
}

impl Model for MemPort {
    ghost use Rattle.spl_port.specs.MemPort.{PortState};

    ghost Value = { PortState };

    ghost view = { λ p. record { counts = p.tally; calls = p.calls; made = p.made } };
}

impl MemPort {
    ghost use Rattle.spl_port.specs.declared.calls.Calls.TheVariants.{Listed};
    ghost use Rattle.spl_port.specs.Calls.{fails};
    ghost use Rattle.spl_port.specs.MemPort.{after_call};

    /// A port that never fails.
    pub fn new(alloc: Global) -> MemPort
        ensures { result ≡ record { counts = no_counts; calls = Listed []; made = 0 } }
    {
        let none: Vec<u64> = Vec::new(alloc);
        MemPort::failing(alloc, Calls::Listed(none.into()))
    }

    /// A port of which these calls fail.
    pub fn failing(alloc: Global, calls: Calls) -> MemPort
        ensures { result ≡ record { counts = no_counts; calls = calls; made = 0 } }
    {
        MemPort {
            alloc,
            calls,
            made: 0,
            tally: Tally::new(),
        }
    }

    /// Counts a call, and says whether it is to fail.
    fn call_fails(&mut self, is_read: bool) -> bool
        ensures fails { result ≡ fails self.old.calls self.old.made is_read }
        ensures after { self.new ≡ after_call self.old self.old.counts }
    {
        let fails = self.calls.fails(self.made, is_read);
        self.made = self.made.saturating_add(1);
        fails
    }

    /// How often a call failed.
    pub fn faults(&self) -> u64
        ensures { result ≡ self.now.counts.faults }
    {
        self.tally.faults()
    }

    /// How many pages were read.
    pub fn reads(&self) -> u64
        ensures { result ≡ self.now.counts.reads }
    {
        self.tally.reads()
    }
}

impl Port for MemPort {
    ghost use Rattle.spl_port.specs.MemPort.{Refuses, after_call};

    type Draft = MemDraft;

    type Seal = MemSeal;

    ghost counts = { λ p. p.counts };

    ghost drafts = { λ d. meaning true d };

    fn begin(&mut self, extent: u32, branch: u64, first: u32) -> MemDraft
        requires { first < 2 ^ 31 }
        ensures same { self.new ≡ self.old }
        ensures begun { meaning true result ≡ empty_draft true extent branch first }
        ensures counts { self.new.counts ≡ self.old.counts }
    {
        MemDraft::new(self.alloc, extent, branch, first)
    }

    fn append(&mut self, draft: &mut MemDraft, bytes: &[u8; PAGE_BYTES]) -> Result<(), PortFault>
        requires { page_count (meaning true draft.old) < 32 }
        ensures refused { Refuses self.old self.new false result }
        ensures done { OnOk result (self.new
            ≡ after_call self.old (record self.old.counts { writes = self.old.counts.writes + 1 })) }

        // What each port keeps.
        ensures ok { OnOk result (meaning true draft.new ≡ with_page (meaning true draft.old) bytes.now) }
        ensures err { OnErr result (meaning true draft.new ≡ meaning true draft.old) }
        ensures counts { WritesOne self.old.counts self.new.counts }
        ensures ok_count { OnOk result (self.new.counts.writes ≡ self.old.counts.writes + 1) }
        ensures ok_faults { OnOk result (self.new.counts.faults ≡ self.old.counts.faults) }
        ensures spent { IsSpent self.old.counts.writes → result ≡ Err PortFault.NoMemory }
        ensures cause { HasCause self.old.counts self.new.counts result }
    {
        let fails = self.call_fails(false);
        if !self.tally.can_write() {
            return Err(PortFault::NoMemory);
        }
        if fails {
            self.tally.fault();
            return Err(PortFault::Failed);
        }
        draft.push(PageBytes::copy(self.alloc, bytes)?)?;
        self.tally.write();
        Ok(())
    }

    fn seal(&mut self, draft: MemDraft) -> Result<MemSeal, PortFault>
        ensures refused { Refuses self.old self.new false result }
        ensures done { OnOk result (self.new ≡ after_call self.old self.old.counts) }

        // What each port keeps.
        ensures ok { IfOk result (λ seal. meaning true seal ≡ meaning true draft) }
        ensures ok_faults { OnOk result (self.new.counts.faults ≡ self.old.counts.faults) }
        ensures counts { MovesNone self.old.counts self.new.counts }
        ensures cause { HasCause self.old.counts self.new.counts result }
    {
        if self.call_fails(false) {
            self.tally.fault();
            return Err(PortFault::Failed);
        }
        Ok(MemSeal::new(draft))
    }

    fn read(&mut self, seal: &MemSeal, page: u32) -> Result<PageBytes, PortFault>
        requires { page < page_count (meaning true seal.now) }
        ensures refused { Refuses self.old self.new true result }
        ensures done { IfOk result (λ bytes. self.new ≡ after_call self.old (record self.old.counts {
          reads = self.old.counts.reads + 1;
          last = Some (record { at = place (meaning true seal.now) page; bytes = bytes });
        })) }

        // What each port keeps.
        ensures ok { IfOk result (λ bytes. Allows (meaning true seal.now) page bytes) }
        ensures last { IfOk result (λ bytes. self.new.counts.last
            ≡ Some (record { at = place (meaning true seal.now) page; bytes = bytes })) }
        ensures err { OnErr result (self.new.counts.last ≡ self.old.counts.last) }
        ensures counts { ReadsOne self.old.counts self.new.counts }
        ensures ok_count { OnOk result (self.new.counts.reads ≡ self.old.counts.reads + 1) }
        ensures ok_faults { OnOk result (self.new.counts.faults ≡ self.old.counts.faults) }
        ensures spent { IsSpent self.old.counts.reads → result ≡ Err PortFault.NoMemory }
        ensures cause { HasCause self.old.counts self.new.counts result }
    {
        let fails = self.call_fails(true);
        if !self.tally.can_read() {
            return Err(PortFault::NoMemory);
        }
        if fails {
            self.tally.fault();
            return Err(PortFault::Failed);
        }
        let bytes = PageBytes::copy(self.alloc, seal.stack().page(page))?;
        self.tally.read(seal.at(page), bytes.bytes());
        Ok(bytes)
    }

    fn writes(&self) -> u64 {
        self.tally.writes()
    }
}
