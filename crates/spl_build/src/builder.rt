ghost use Rattle.std.specs.Prelude.{◌≡◌, ◌≢◌, ◌+◌, ◌<◌, ◌≤◌, ◌↔◌, [], ◌∷◌, ◌++◌, true, length, Some, None, IsTrue, IfOk, IfErr, IfSome, OnOk, OnErr};
ghost use Rattle.spl_message.specs.Key.{is_below};
ghost use Rattle.spl_page.specs.Lent.{message_lent};
ghost use Rattle.spl_port.specs.Port.{WritesOne};
ghost use Rattle.spl_build.specs.Builder.{Adds, Builds, HasNoRoom, IfBuilt, Needs};
ghost use Rattle.spl_branch.specs.Pages.{page_total};
ghost use Rattle.spl_build.specs.Counts.{OnlyWrites, WritesPages};
ghost use Rattle.spl_build.specs.Fault.{HasBuildCause};

use crate::work::Work;
use crate::{Add, BuildFault, Finish, Stage};
use spl_message::{Key, NoMemory};
use spl_page::LentMessage;
use spl_port::Port;
use std::alloc::Global;
use std::marker::Model;

/// A branch that is written to a port while its keys come, in rising order.
///
/// It holds one page's bytes at a time, eight bytes for each key, and one index entry for each page that has no parent
/// yet. An extent is begun when its first page is written.
#[derive(Drop)]
pub struct Builder<P: Port> {
    work: Work<P>,
    stage: Stage,
    /// The first fault.
    stopped: Option<BuildFault>,
}

impl<P: Port> Model for Builder<P> {
    ghost use Rattle.spl_build.specs.Builder.{Building, IsBuilding, building};

    ghost Value = { Building };

    ghost view = { λ b. building b.work b.stage b.stopped };

    ghost invariant = { λ b. IsBuilding b.work b.stage b.stopped };
}

impl<P: Port> Builder<P> {
    /// A builder of the branch with this number. It takes no memory.
    pub fn new(alloc: Global, number: u64) -> Builder<P>
        ensures { result ≡ record {
          number = number;
          extents = [];
          parts = [];
          begun = [];
          entries = 0;
          hashes = [];
          cuts = [];
          last = None;
          roots = 0;
          stage = Stage.Adding;
          stopped = None;
        } }
    {
        Builder {
            work: Work::new(alloc, number),
            stage: Stage::Adding,
            stopped: None,
        }
    }

    /// Adds a key with a borrowed message behind the others. If the next page has no extent, nothing is added.
    pub fn add(
        &mut self,
        port: &mut P,
        key: &Key,
        message: LentMessage<'_>,
    ) -> Result<Add, BuildFault>
        requires stage { self.old.stopped ≡ None → self.old.stage ≡ Stage.Adding }
        requires rising { self.old.stopped ≡ None → IfSome self.old.last (λ last. is_below last key.now ≡ true) }

        // After a fault no call is made.
        ensures stopped { IfSome self.old.stopped (λ fault. result ≡ Err fault) }
        ensures stopped_same { IfSome self.old.stopped (λ _. self.new ≡ self.old) }
        ensures stopped_counts { IfSome self.old.stopped (λ _. P.counts port.new ≡ P.counts port.old) }

        ensures needs { IfOk result (λ answer. (answer ≡ Add.Needs) ↔ HasNoRoom self.old key.now (message_lent message.entry)) }
        ensures needs_same { result ≡ Ok Add.Needs → self.new ≡ self.old }
        ensures needs_counts { result ≡ Ok Add.Needs → P.counts port.new ≡ P.counts port.old }
        ensures done { result ≡ Ok Add.Done → Adds P.Seal.TELLS self.old self.new key.now (message_lent message.entry) }
        ensures pages { OnOk result (WritesPages (P.counts port.old) (P.counts port.new) (page_total self.old.parts) (page_total self.new.parts)) }
        ensures err { IfErr result (λ fault. self.new.stopped ≡ Some fault) }
        ensures counts { WritesOne (P.counts port.old) (P.counts port.new) }
        ensures cause { self.old.stopped ≡ None → HasBuildCause (P.counts port.old) (P.counts port.new) result }
    {
        if let Some(fault) = self.stopped {
            return Err(fault);
        }
        match self.work.add(port, key, message) {
            Ok(answer) => Ok(answer),
            Err(fault) => {
                self.stopped = Some(fault);
                Err(fault)
            }
        }
    }

    /// Hands in one more extent, which the builder begins when it writes the first page there. A branch has at most
    /// 65,536.
    pub fn give(&mut self, extent: u32) -> Result<(), NoMemory>
        requires stopped { self.old.stopped ≡ None }
        requires stage { self.old.stage ≢ Stage.Over }
        ensures full { 65536 ≤ length self.old.extents → OnOk result ⊥ }
        ensures ok { OnOk result (self.new ≡ record self.old { extents = self.old.extents ++ extent ∷ [] }) }
        ensures err { OnErr result (self.new ≡ self.old) }
    {
        if self.work.has_most_extents() {
            return Err(NoMemory);
        }
        self.work.give(extent)
    }

    /// Writes the remaining pages and returns the branch. If the next page has no extent, the next call goes on from
    /// there.
    pub fn finish(&mut self, port: &mut P) -> Result<Finish<P::Seal>, BuildFault>
        requires { self.old.stopped ≡ None → self.old.stage ≢ Stage.Over }

        // After a fault no call is made.
        ensures stopped { IfSome self.old.stopped (λ fault. result ≡ Err fault) }
        ensures stopped_same { IfSome self.old.stopped (λ _. self.new ≡ self.old) }
        ensures stopped_counts { IfSome self.old.stopped (λ _. P.counts port.new ≡ P.counts port.old) }

        ensures empty { IfOk result (λ answer. (answer ≡ Finish.Empty) ↔ (self.old.entries ≡ 0)) }
        ensures empty_counts { result ≡ Ok Finish.Empty → P.counts port.new ≡ P.counts port.old }
        ensures needs { result ≡ Ok Finish.Needs → Needs P.Seal.TELLS self.old self.new }
        ensures needs_pages { result ≡ Ok Finish.Needs
            → WritesPages (P.counts port.old) (P.counts port.new) (page_total self.old.parts) (page_total self.new.parts) }
        ensures built { IfOk result (λ answer. IfBuilt answer (λ branch. Builds P.Seal.TELLS self.old branch)) }
        ensures built_pages { IfOk result (λ answer. IfBuilt answer (λ branch.
            WritesPages (P.counts port.old) (P.counts port.new) (page_total self.old.parts) (page_total branch.parts))) }
        ensures over { IfOk result (λ answer. answer ≢ Finish.Needs → self.new.stage ≡ Stage.Over) }
        ensures err { IfErr result (λ fault. self.new.stopped ≡ Some fault) }
        ensures counts { OnlyWrites (P.counts port.old) (P.counts port.new) }
        ensures cause { self.old.stopped ≡ None → HasBuildCause (P.counts port.old) (P.counts port.new) result }
    {
        if let Some(fault) = self.stopped {
            return Err(fault);
        }
        if self.work.is_empty() {
            self.stage = Stage::Over;
            return Ok(Finish::Empty);
        }
        match self.work.finish(port) {
            Ok(Some(branch)) => {
                self.stage = Stage::Over;
                Ok(Finish::Built(branch))
            }
            Ok(None) => {
                self.stage = Stage::Finishing;
                Ok(Finish::Needs)
            }
            Err(fault) => {
                self.stopped = Some(fault);
                Err(fault)
            }
        }
    }
}
