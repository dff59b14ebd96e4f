use crate::watch::Watch;
use spl_port::{PAGE_BYTES, PageBytes, Port, PortFault, Seal};

/// A device whose watch is told each page that is to be read.
#[derive(Drop)]
pub struct WatchedPort<'a, P> {
    port: P,
    watch: &'a Watch,
}

impl<'a, P> WatchedPort<'a, P> {
    ghost use Rattle.std.specs.Prelude.{◌≡◌};

    /// The same device, with the watch.
    pub fn new(port: P, watch: &'a Watch) -> WatchedPort<'a, P>
        ensures { result.port ≡ port }
    {
        WatchedPort { port, watch }
    }
}

impl<'a, P: Port> Port for WatchedPort<'a, P> {
    ghost use Rattle.std.specs.Prelude.{◌≡◌, ◌+◌, ◌<◌, ◌^◌, Some, IfOk, OnOk, OnErr};
    ghost use Rattle.spl_port.specs.Counts.{IsSpent};
    ghost use Rattle.spl_port.specs.Port.{HasCause, MovesNone, ReadsOne, WritesOne};
    ghost use Rattle.spl_port.specs.Seal.{Allows, with_page, empty_draft, page_count, place};

    type Draft = P::Draft;

    type Seal = P::Seal;

    ghost counts = { λ watched. P.counts watched.port };

    ghost drafts = { P.drafts };

    fn begin(&mut self, extent: u32, branch: u64, first: u32) -> P::Draft
        requires { first < 2 ^ 31 }
        ensures begun { P.drafts result ≡ empty_draft P.Seal.TELLS extent branch first }
        ensures counts { P.counts self.new.port ≡ P.counts self.old.port }
    {
        self.port.begin(extent, branch, first)
    }

    fn append(&mut self, draft: &mut P::Draft, bytes: &[u8; PAGE_BYTES]) -> Result<(), PortFault>
        requires { page_count (P.drafts draft.old) < 32 }
        ensures ok { OnOk result (P.drafts draft.new ≡ with_page (P.drafts draft.old) bytes.now) }
        ensures err { OnErr result (P.drafts draft.new ≡ P.drafts draft.old) }
        ensures counts { WritesOne (P.counts self.old.port) (P.counts self.new.port) }
        ensures ok_count { OnOk result ((P.counts self.new.port).writes ≡ (P.counts self.old.port).writes + 1) }
        ensures ok_faults { OnOk result ((P.counts self.new.port).faults ≡ (P.counts self.old.port).faults) }
        ensures spent { IsSpent (P.counts self.old.port).writes → result ≡ Err PortFault.NoMemory }
        ensures cause { HasCause (P.counts self.old.port) (P.counts self.new.port) result }
    {
        self.port.append(draft, bytes)
    }

    fn seal(&mut self, draft: P::Draft) -> Result<P::Seal, PortFault>
        ensures ok { IfOk result (λ seal. P.Seal.means seal ≡ P.drafts draft) }
        ensures ok_faults { OnOk result ((P.counts self.new.port).faults ≡ (P.counts self.old.port).faults) }
        ensures counts { MovesNone (P.counts self.old.port) (P.counts self.new.port) }
        ensures cause { HasCause (P.counts self.old.port) (P.counts self.new.port) result }
    {
        self.port.seal(draft)
    }

    fn read(&mut self, seal: &P::Seal, page: u32) -> Result<PageBytes, PortFault>
        requires { page < page_count (P.Seal.means seal.now) }
        ensures ok { IfOk result (λ bytes. Allows (P.Seal.means seal.now) page bytes) }
        ensures last { IfOk result (λ bytes. (P.counts self.new.port).last
            ≡ Some (record { at = place (P.Seal.means seal.now) page; bytes = bytes })) }
        ensures err { OnErr result ((P.counts self.new.port).last ≡ (P.counts self.old.port).last) }
        ensures counts { ReadsOne (P.counts self.old.port) (P.counts self.new.port) }
        ensures ok_count { OnOk result ((P.counts self.new.port).reads ≡ (P.counts self.old.port).reads + 1) }
        ensures ok_faults { OnOk result ((P.counts self.new.port).faults ≡ (P.counts self.old.port).faults) }
        ensures spent { IsSpent (P.counts self.old.port).reads → result ≡ Err PortFault.NoMemory }
        ensures cause { HasCause (P.counts self.old.port) (P.counts self.new.port) result }
    {
        self.watch.read(seal.at(page));
        self.port.read(seal, page)
    }

    fn writes(&self) -> u64
        ensures { result ≡ (P.counts self.now.port).writes }
    {
        self.port.writes()
    }
}
