ghost use Rattle.std.specs.Prelude.{◌≡◌, ◌+◌, ◌≤◌, true, false, None, IfOk, IfErr, OnOk};
ghost use Rattle.spl_message.specs.Table.{message_at};
ghost use Rattle.spl_branch.specs.Branch.{table_of};
ghost use Rattle.spl_branch.specs.Pages.{AreTold, page_total};
ghost use Rattle.spl_branch.specs.Path.{IsFoundBy};
ghost use Rattle.spl_branch.specs.Reading.{HasBranchCause, OnlyReads, ReadsNone, admits, reach_of};

use crate::BranchFault;
use crate::branch::{Branch, is_admitted};
use crate::visit::message_of;
use spl_message::{HashedKey, Message};
use spl_pager::Pager;
use spl_port::{Port, Seal};

impl<S: Seal> Branch<S> {
    /// The message that the pages have for the key.
    fn descend<P: Port<Seal = S>, G: Pager>(
        &self,
        port: &mut P,
        pager: &G,
        key: &HashedKey,
    ) -> Result<Option<Message>, BranchFault>
        ensures table { AreTold self.now.parts → IfOk result (λ found. found ≡ message_at (table_of self.now) key.now) }
        ensures reach { AreTold self.now.parts → (P.counts port.new).reads ≤ (P.counts port.old).reads + self.now.levels }
        ensures path { IfOk result (IsFoundBy (G.shows pager.now) self.now key.now (P.counts port.old) (P.counts port.new)) }
        ensures most { (P.counts port.new).reads ≤ (P.counts port.old).reads + page_total self.now.parts }
        ensures counts { OnlyReads (P.counts port.old) (P.counts port.new) }
        ensures faults { OnOk result ((P.counts port.new).faults ≡ (P.counts port.old).faults) }
        ensures cause { IfErr result (HasBranchCause self.now (P.counts port.old) (P.counts port.new)) }
    {
        let page = self.walk(port, pager, key.key())?;
        let alloc = *self.parts.extents.allocator();
        Ok(message_of(alloc, &page, key.key())?)
    }

    /// The message that the branch has for the key. A delete is a message.
    ///
    /// The filter is asked first: it is in memory, and most branches do not have the key.
    pub fn get<P: Port<Seal = S>, G: Pager>(
        &self,
        port: &mut P,
        pager: &G,
        key: &HashedKey,
    ) -> Result<Option<Message>, BranchFault>
        ensures table { S.TELLS ≡ true → IfOk result (λ found. found ≡ message_at (table_of self.now) key.now) }
        ensures unread { admits self.now.filter key.now ≡ false → (result ≡ Ok None) × ReadsNone (P.counts port.old) (P.counts port.new) }
        ensures reach { S.TELLS ≡ true → (P.counts port.new).reads ≤ (P.counts port.old).reads + reach_of self.now key.now }

        // On every device.
        ensures path { admits self.now.filter key.now ≡ true →
            IfOk result (IsFoundBy (G.shows pager.now) self.now key.now (P.counts port.old) (P.counts port.new)) }
        ensures most { (P.counts port.new).reads ≤ (P.counts port.old).reads + page_total self.now.parts }
        ensures counts { OnlyReads (P.counts port.old) (P.counts port.new) }
        ensures faults { OnOk result ((P.counts port.new).faults ≡ (P.counts port.old).faults) }
        ensures cause { IfErr result (HasBranchCause self.now (P.counts port.old) (P.counts port.new)) }
    {
        if is_admitted(&self.parts.filter, key) {
            return self.descend(port, pager, key);
        }
        Ok(None)
    }
}
