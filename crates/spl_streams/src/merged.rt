ghost use Rattle.std.specs.Prelude.{◌≡◌, ◌≢◌, ◌+◌, ◌≤◌, true, false, None, [], IfOk, IfErr, IfSome, OnOk, OnErr, map, sum_by};
ghost use Rattle.spl_message.specs.Table.{part_of};
ghost use Rattle.spl_branch.specs.declared.fault.BranchFault.TheVariants.{NoMemory as out_of_memory};
ghost use Rattle.spl_branch.specs.Branch.{table_of};
ghost use Rattle.spl_branch.specs.Reading.{OnlyReads};
ghost use Rattle.spl_merge.specs.Merging.{IsMergedSoFar};
ghost use Rattle.spl_streams.specs.Merging.{Builds, Gives, HasMergeCause, IsNext, Keeps, Moves, pages_of};

use crate::streams::Streams;
use spl_branch::{Branch, BranchFault};
use spl_merge::Step;
use spl_message::{Key, MergeLaw, Message, NoMemory, Span};
use spl_pager::Pager;
use spl_port::{Port, Seal};
use std::alloc::Global;
use std::marker::Model;
use std::sync::Arc;

/// The merge of branches within a span, entry by entry. The branches come oldest first.
#[derive(Drop)]
pub struct Merged<S: Seal> {
    streams: Streams<S>,
}

impl<S: Seal> Model for Merged<S> {
    ghost use Rattle.spl_streams.specs.Merging.{Merging, merging_of};

    ghost Value = { Merging };

    ghost view = { λ m. merging_of m.streams };
}

impl<S: Seal> Merged<S> {
    /// The merge of these branches, oldest first. `bottom` says that nothing older lies below. No page
    /// is read. More than `u32::MAX` branches count as out of memory.
    pub fn new(
        alloc: Global,
        branches: &[Arc<Branch<S>>],
        span: &Span,
        bottom: bool,
    ) -> Result<Merged<S>, NoMemory>
        ensures { IfOk result (λ merged. merged ≡ record {
          branches = map (λ branch. branch.value) branches.now;
          span = span.now;
          bottom = bottom;
          left = map (λ branch. part_of span.now (table_of branch)) (map (λ branch. branch.value) branches.now);
          unread = sum_by pages_of (map (λ branch. branch.value) branches.now);
          last = None;
          failed = false;
        }) }
    {
        let streams = Streams::new(alloc, branches, span, bottom)?;
        Ok(Merged { streams })
    }

    /// The next entry of the merge, or `None` at its end. Calls without an error read each leaf page at
    /// most once, beside the pages on the way to the first ones. After an error the next call goes on
    /// where this one stopped, unless a step ran out of memory: then the merge has failed.
    pub fn next<P: Port<Seal = S>, G: Pager, L: MergeLaw>(
        &mut self,
        port: &mut P,
        pager: &G,
        law: &L,
    ) -> Result<Option<(Key, Message)>, BranchFault>
        requires ready { L.ready law.now }
        requires sound { self.old.failed ≡ false }
        ensures told { S.TELLS ≡ true → IfOk result (λ given. Gives (L.rule law.now) self.old given self.new) }
        ensures again { S.TELLS ≡ true → self.new.failed ≡ false → OnErr result (IsMergedSoFar (L.rule law.now)
            self.old.left self.old.span self.old.bottom [] self.new.left) }

        // On every device.
        ensures rises { IfOk result (λ given. IfSome given (λ entry. IsNext self.old entry.0 self.new)) }
        ensures kept { self.new.failed ≡ false → Keeps self.old self.new }
        ensures sound { OnOk result (self.new.failed ≡ false) }
        ensures failed { IfErr result (λ fault. fault ≢ out_of_memory → self.new.failed ≡ false) }
        ensures once { OnOk result (
            (P.counts port.new).reads + self.new.unread ≤ (P.counts port.old).reads + self.old.unread) }
        ensures most { (P.counts port.new).reads ≤ (P.counts port.old).reads + self.old.unread }
        ensures counts { OnlyReads (P.counts port.old) (P.counts port.new) }
        ensures faults { OnOk result ((P.counts port.new).faults ≡ (P.counts port.old).faults) }
        ensures cause { IfErr result (HasMergeCause self.old.branches (P.counts port.old) (P.counts port.new)) }
    {
        loop {
            match self.advance(port, pager, law)? {
                Step::Entry(key, message) => return Ok(Some((key, message))),
                Step::Dropped => {}
                Step::Ended => return Ok(None),
            }
        }
    }

    /// One step of the merge.
    fn advance<P: Port<Seal = S>, G: Pager, L: MergeLaw>(
        &mut self,
        port: &mut P,
        pager: &G,
        law: &L,
    ) -> Result<Step, BranchFault>
        requires ready { L.ready law.now }
        requires sound { self.old.failed ≡ false }
        ensures told { S.TELLS ≡ true → IfOk result (λ step. Builds (L.rule law.now) self.old step self.new) }
        ensures again { S.TELLS ≡ true → self.new.failed ≡ false → OnErr result (self.new.left ≡ self.old.left) }
        ensures moves { IfOk result (λ step. Moves self.old step self.new) }
        ensures kept { self.new.failed ≡ false → Keeps self.old self.new }
        ensures sound { OnOk result (self.new.failed ≡ false) }
        ensures failed { IfErr result (λ fault. fault ≢ out_of_memory → self.new.failed ≡ false) }
        ensures once { OnOk result (
            (P.counts port.new).reads + self.new.unread ≤ (P.counts port.old).reads + self.old.unread) }
        ensures most { (P.counts port.new).reads ≤ (P.counts port.old).reads + self.old.unread }
        ensures counts { OnlyReads (P.counts port.old) (P.counts port.new) }
        ensures faults { OnOk result ((P.counts port.new).faults ≡ (P.counts port.old).faults) }
        ensures cause { IfErr result (HasMergeCause self.old.branches (P.counts port.old) (P.counts port.new)) }
    {
        self.streams.fill(port, pager)?;
        Ok(self.streams.step(law)?)
    }
}
