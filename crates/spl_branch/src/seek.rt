ghost use Rattle.std.specs.Prelude.{◌≡◌, ◌+◌, ◌≤◌, true, IfOk, IfErr, OnOk, take, flat_map};
ghost use Rattle.spl_branch.specs.Leaves.{are_below, leaf_tables, tables_below};
ghost use Rattle.spl_branch.specs.Pages.{AreTold, page_total};
ghost use Rattle.spl_branch.specs.Path.{IsStartBy};
ghost use Rattle.spl_branch.specs.Reading.{HasBranchCause, OnlyReads};

use crate::BranchFault;
use crate::branch::Branch;
use crate::visit::start_of;
use spl_message::Key;
use spl_pager::Pager;
use spl_port::{Port, Seal};

impl<S: Seal> Branch<S> {
    /// The number of the first leaf page that has an entry not below the key: where a scan from the key on starts. It
    /// is `leaves` if there is no such page.
    pub fn seek<P: Port<Seal = S>, G: Pager>(
        &self,
        port: &mut P,
        pager: &G,
        key: &Key,
    ) -> Result<u32, BranchFault>
        ensures first { AreTold self.now.parts → IfOk result (λ number. number ≡ tables_below (leaf_tables self.now) key.now) }
        ensures earlier { AreTold self.now.parts → IfOk result (λ number.
            are_below (flat_map (λ entries. entries) (take number (leaf_tables self.now))) key.now ≡ true) }
        ensures reach { AreTold self.now.parts → (P.counts port.new).reads ≤ (P.counts port.old).reads + self.now.levels }

        // On every device.
        ensures within { IfOk result (λ number. number ≤ self.now.leaves) }
        ensures path { IfOk result (IsStartBy (G.shows pager.now) self.now key.now (P.counts port.old) (P.counts port.new)) }
        ensures most { (P.counts port.new).reads ≤ (P.counts port.old).reads + page_total self.now.parts }
        ensures counts { OnlyReads (P.counts port.old) (P.counts port.new) }
        ensures faults { OnOk result ((P.counts port.new).faults ≡ (P.counts port.old).faults) }
        ensures cause { IfErr result (HasBranchCause self.now (P.counts port.old) (P.counts port.new)) }
    {
        let page = self.walk(port, pager, key)?;
        // A branch has far fewer leaf pages than there are numbers.
        let _parts = &self.parts;
        Ok(start_of(&page, key))
    }
}
