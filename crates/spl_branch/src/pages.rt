//! The pages of a branch by their numbers, as a pager gives them.
ghost use Rattle.std.specs.Prelude.{◌≡◌, ◌<◌, ◌≤◌, true, Some, IfOk, IfErr, OnOk, flat_map};
ghost use Rattle.std.specs.Arc.{arc_value};
ghost use Rattle.std.specs.List.{slice_get};
ghost use Rattle.spl_page.specs.AnyPage.{is_leaf, shown_of};
ghost use Rattle.spl_page.specs.Tables.{leaf_table};
ghost use Rattle.spl_port.specs.Port.{ReadsOne};
ghost use Rattle.spl_branch.specs.Branch.{entries_in};
ghost use Rattle.spl_branch.specs.Leaves.{leaf_tables};
ghost use Rattle.spl_branch.specs.Pages.{AreTold, page_total, shown_pages};
ghost use Rattle.spl_branch.specs.Path.{IsGiven};
ghost use Rattle.spl_branch.specs.Reading.{HasBranchCause};
ghost use Rattle.spl_branch.specs.Visiting.{HasVisitCause};

use crate::BranchFault;
use crate::branch::Branch;
use spl_page::AnyPage;
use spl_pager::Pager;
use spl_port::{EXTENT_PAGES, Port, Seal};
use std::sync::Arc;

impl<S: Seal> Branch<S> {
    /// How many of its pages are leaf pages. They are the first ones, and hold its entries in order.
    pub fn leaves(&self) -> u32
        ensures number { result ≡ self.now.leaves }
        ensures some { 0 < self.now.leaves }
        ensures within { self.now.leaves ≤ page_total self.now.parts }
        ensures told { S.TELLS ≡ true → AreTold self.now.parts }
        ensures order { AreTold self.now.parts → entries_in self.now ≡ flat_map (λ entries. entries) (leaf_tables self.now) }
    {
        self.parts.leaves
    }

    /// The leaf page with this number.
    pub fn leaf<P: Port<Seal = S>, G: Pager>(
        &self,
        port: &mut P,
        pager: &G,
        number: u32,
    ) -> Result<Arc<AnyPage>, BranchFault>
        requires { number < self.now.leaves }
        ensures leaf { IfOk result (λ page. is_leaf (arc_value page) ≡ true) }
        ensures told { AreTold self.now.parts → IfOk result (λ page.
            slice_get (leaf_tables self.now) number ≡ Some (leaf_table (shown_of (arc_value page)).bytes)) }
        ensures given { IfOk result (λ page.
            IsGiven (G.shows pager.now) self.now number (P.counts port.old) (record { shown = shown_of (arc_value page); after = P.counts port.new })) }
        ensures counts { ReadsOne (P.counts port.old) (P.counts port.new) }
        ensures faults { OnOk result ((P.counts port.new).faults ≡ (P.counts port.old).faults) }
        ensures cause { IfErr result (HasBranchCause self.now (P.counts port.old) (P.counts port.new)) }
    {
        // There are at most as many as pages, and those that are told are sound.
        let _leaves = self.leaves();
        let _parts = &self.parts;
        self.page(port, pager, number)
    }

    /// The page with this number.
    pub(crate) fn page<P: Port<Seal = S>, G: Pager>(
        &self,
        port: &mut P,
        pager: &G,
        number: u32,
    ) -> Result<Arc<AnyPage>, BranchFault>
        requires { number < page_total self.now.parts }
        ensures told { AreTold self.now.parts → IfOk result (λ page. slice_get (shown_pages self.now.parts) number ≡ Some (shown_of (arc_value page))) }
        ensures given { IfOk result (λ page.
            IsGiven (G.shows pager.now) self.now number (P.counts port.old) (record { shown = shown_of (arc_value page); after = P.counts port.new })) }
        ensures leaf { number < self.now.leaves → IfOk result (λ page. is_leaf (arc_value page) ≡ true) }
        ensures counts { ReadsOne (P.counts port.old) (P.counts port.new) }
        ensures faults { OnOk result ((P.counts port.new).faults ≡ (P.counts port.old).faults) }
        ensures cause { IfErr result (HasVisitCause self.now number (P.counts port.old) (P.counts port.new)) }
    {
        let seal = &self.parts.seals[(number / EXTENT_PAGES) as usize];
        let at = seal.at(number % EXTENT_PAGES);
        let alloc = *self.parts.extents.allocator();
        let page = pager.fetch(alloc, port, seal, at)?;
        // It was checked for its place.
        let _at = page.at();
        Ok(page)
    }
}
