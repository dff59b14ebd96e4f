ghost use Rattle.std.specs.Prelude.{◌≡◌, ◌+◌, ◌≤◌, slice_get, slice_set, replicate, Some, true, false, IfOk};
ghost use Rattle.spl_numbers.specs.Numbers.{one_if};
ghost use Rattle.spl_holds.specs.Grip.{is_read, is_claim, is_write};
ghost use Rattle.spl_holds.specs.Counts.{no_grip, IsAdded, IsFew};
ghost use Rattle.spl_holds.specs.declared.holds.TheConstants.{NODES};

use crate::counts::Counts;
use crate::grip::Grip;
use crate::holds::NODES;
use spl_base::NoMemory;
use spl_numbers::Numbers;
use std::alloc::Global;

/// What an actor has on all nodes together.
#[derive(Debug, Drop)]
pub struct Tally {
    pub counts: Counts,
    /// The nodes on which it has a grip.
    pub nodes: Numbers,
}

impl Tally {
    /// Nothing.
    pub fn new(alloc: Global) -> Result<Tally, NoMemory>
        ensures counts { IfOk result (λ tally. tally.counts ≡ no_grip) }
        ensures nodes { IfOk result (λ tally. tally.nodes ≡ replicate NODES false) }
    {
        Ok(Tally {
            counts: Counts {
                reads: 0,
                claims: 0,
                writes: 0,
            },
            nodes: Numbers::new(alloc, NODES)?,
        })
    }

    /// The actor gets a grip on the node.
    pub fn add(&mut self, node: u32, grip: Grip)
        requires few { IsFew self.old.counts }
        requires new { slice_get self.old.nodes node ≡ Some false }
        ensures counts { IsAdded self.old.counts self.new.counts grip }
        ensures nodes { self.new.nodes ≡ slice_set self.old.nodes node true }
    {
        self.counts.add(grip);
        self.nodes.insert(node);
    }

    /// A claim becomes a write.
    pub fn lock(&mut self)
        requires few { IsFew self.old.counts }
        requires claimed { 1 ≤ self.old.counts.claims }
        ensures reads { self.new.counts.reads ≡ self.old.counts.reads }
        ensures claims { self.new.counts.claims + 1 ≡ self.old.counts.claims }
        ensures writes { self.new.counts.writes ≡ self.old.counts.writes + 1 }
        ensures nodes { self.new.nodes ≡ self.old.nodes }
    {
        self.counts.claims -= 1;
        self.counts.writes += 1;
    }

    /// The actor's grip on the node ends.
    pub fn drop(&mut self, node: u32, grip: Grip)
        requires reads { one_if (is_read grip) ≤ self.old.counts.reads }
        requires claims { one_if (is_claim grip) ≤ self.old.counts.claims }
        requires writes { one_if (is_write grip) ≤ self.old.counts.writes }
        requires held { slice_get self.old.nodes node ≡ Some true }
        ensures counts { IsAdded self.new.counts self.old.counts grip }
        ensures nodes { self.new.nodes ≡ slice_set self.old.nodes node false }
    {
        self.counts.drop(grip);
        self.nodes.remove(node);
    }
}
