//! The path from the root down to a key, which a lookup and a scan share.
ghost use Rattle.std.specs.Prelude.{◌≡◌, ◌+◌, ◌<◌, ◌≤◌, true, IfOk, IfErr, OnOk};
ghost use Rattle.std.specs.Arc.{arc_value};
ghost use Rattle.spl_page.specs.AnyPage.{shown_of};
ghost use Rattle.spl_branch.specs.Pages.{AreTold, page_total};
ghost use Rattle.spl_branch.specs.Path.{EndsAt};
ghost use Rattle.spl_branch.specs.Reading.{HasBranchCause, OnlyReads};
ghost use Rattle.spl_branch.specs.Visiting.{IsEnd};

use crate::BranchFault;
use crate::branch::Branch;
use crate::visit::child_of;
use spl_message::Key;
use spl_page::AnyPage;
use spl_pager::Pager;
use spl_port::{Port, Seal};
use std::sync::Arc;

impl<S: Seal> Branch<S> {
    /// The page where the path from the root to the key ends.
    pub(crate) fn walk<P: Port<Seal = S>, G: Pager>(
        &self,
        port: &mut P,
        pager: &G,
        key: &Key,
    ) -> Result<Arc<AnyPage>, BranchFault>
        ensures told { AreTold self.now.parts → IfOk result (λ page. IsEnd self.now key.now (shown_of (arc_value page))) }
        ensures reach { AreTold self.now.parts → (P.counts port.new).reads ≤ (P.counts port.old).reads + self.now.levels }
        ensures path { IfOk result (λ page.
            EndsAt (G.shows pager.now) self.now key.now (P.counts port.old) (P.counts port.new) (shown_of (arc_value page))) }
        ensures leaf { IfOk result (λ page. (shown_of (arc_value page)).at.leaf ≡ true → (shown_of (arc_value page)).at.page < self.now.leaves) }
        ensures most { (P.counts port.new).reads ≤ (P.counts port.old).reads + page_total self.now.parts }
        ensures counts { OnlyReads (P.counts port.old) (P.counts port.new) }
        ensures faults { OnOk result ((P.counts port.new).faults ≡ (P.counts port.old).faults) }
        ensures cause { IfErr result (HasBranchCause self.now (P.counts port.old) (P.counts port.new)) }
    {
        let mut number = self.pages - 1;
        loop {
            let page = self.page(port, pager, number)?;
            match child_of(&page, key) {
                Some(child) => number = child,
                None => return Ok(page),
            }
        }
    }
}
