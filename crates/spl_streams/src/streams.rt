ghost use Rattle.std.specs.Prelude.{◌≡◌, ◌+◌, ◌-◌, ◌≤◌, true, false, [], Some, IfOk, IfErr, IfSome, IsErr, OnOk, OnErr, length, map, take};
ghost use Rattle.std.specs.List.{slice_get};
ghost use Rattle.spl_message.specs.Entries.{AreEntries};
ghost use Rattle.spl_message.specs.Key.{IsKey};
ghost use Rattle.spl_branch.specs.Branch.{entries_in};
ghost use Rattle.spl_branch.specs.Reading.{OnlyReads};
ghost use Rattle.spl_streams.specs.Merging.{Builds, HasMergeCause, Keeps, Moves, merging_of};
ghost use Rattle.spl_streams.specs.Streams.{AreJoined, Feeds, branches_of, fresh_merger, fresh_scan, unread_all};

use spl_branch::{Branch, BranchFault};
use spl_merge::{Merger, Step};
use spl_message::{Content, Key, MergeLaw, Message, NoMemory, Span};
use spl_pager::Pager;
use spl_port::{Port, Seal};
use spl_scan::Scan;
use std::alloc::Global;
use std::marker::Model;
use std::sync::Arc;

/// A scan of each branch, and the merger that takes what the scans give. A stream has the place of
/// its branch as its number.
#[derive(Drop)]
pub(crate) struct Streams<S: Seal> {
    scans: Vec<Scan<S>>,
    merger: Merger,
}

impl<S: Seal> Model for Streams<S> {
    ghost use Rattle.std.specs.Prelude.{◌≡◌, false};
    ghost use Rattle.spl_streams.specs.Streams.{Streams as Shown, AreJoined};

    ghost Value = { Shown };

    ghost view = { λ s. record { scans = s.scans.items; merger = s.merger } };

    ghost invariant = { λ s. s.merger.failed ≡ false
        → AreJoined S.TELLS (record { scans = s.scans.items; merger = s.merger }) };
}

impl<S: Seal> Streams<S> {
    /// The streams of these branches. No page is read.
    pub(crate) fn new(
        alloc: Global,
        branches: &[Arc<Branch<S>>],
        span: &Span,
        bottom: bool,
    ) -> Result<Streams<S>, NoMemory>
        ensures { IfOk result (λ streams. streams ≡ record {
          scans = map (fresh_scan span.now) (map (λ branch. branch.value) branches.now);
          merger = fresh_merger span.now bottom (length branches.now);
        }) }
    {
        let Ok(count) = u32::try_from(branches.len()) else {
            return Err(NoMemory);
        };
        let merger = Merger::new(alloc, span, bottom, count)?;
        let mut scans = Vec::with_capacity(alloc, branches.len())?;
        for branch in branches {
            scans.push(scan_of(alloc, branch, span)?)?;
        }
        Ok(Streams { scans, merger })
    }

    /// Gives the merger the next entry of each stream that it wants.
    pub(crate) fn fill<P: Port<Seal = S>, G: Pager>(
        &mut self,
        port: &mut P,
        pager: &G,
    ) -> Result<(), BranchFault>
        requires sound { self.old.merger.failed ≡ false }
        ensures given { OnOk result (self.new.merger.wanted ≡ []) }
        ensures feeds { Feeds S.TELLS self.old self.new }
        ensures once { OnOk result (
            (P.counts port.new).reads + unread_all self.new.scans
            ≤ (P.counts port.old).reads + unread_all self.old.scans) }
        ensures most { (P.counts port.new).reads ≤ (P.counts port.old).reads + unread_all self.old.scans }
        ensures counts { OnlyReads (P.counts port.old) (P.counts port.new) }
        ensures faults { OnOk result ((P.counts port.new).faults ≡ (P.counts port.old).faults) }
        ensures cause { IfErr result (HasMergeCause (branches_of self.old.scans)
            (P.counts port.old) (P.counts port.new)) }
    {
        while let Some(stream) = self.merger.wanted() {
            self.feed(port, pager, stream)?;
        }
        Ok(())
    }

    /// Gives the merger the next entry of the stream that it wants first.
    fn feed<P: Port<Seal = S>, G: Pager>(
        &mut self,
        port: &mut P,
        pager: &G,
        stream: u32,
    ) -> Result<(), BranchFault>
        requires sound { self.old.merger.failed ≡ false }
        requires wanted { slice_get self.old.merger.wanted (length self.old.merger.wanted - 1) ≡ Some stream }
        ensures fed { OnOk result (self.new.merger.wanted
            ≡ take (length self.old.merger.wanted - 1) self.old.merger.wanted) }
        ensures feeds { Feeds S.TELLS self.old self.new }
        ensures once { OnOk result (
            (P.counts port.new).reads + unread_all self.new.scans
            ≤ (P.counts port.old).reads + unread_all self.old.scans) }
        ensures most { (P.counts port.new).reads ≤ (P.counts port.old).reads + unread_all self.old.scans }
        ensures counts { OnlyReads (P.counts port.old) (P.counts port.new) }
        ensures faults { OnOk result ((P.counts port.new).faults ≡ (P.counts port.old).faults) }
        ensures cause { IfErr result (HasMergeCause (branches_of self.old.scans)
            (P.counts port.old) (P.counts port.new)) }
    {
        let entry = self.scans[stream as usize].next(port, pager)?;
        has_key(&entry);
        self.merger.give(stream, entry);
        Ok(())
    }

    /// Takes the heads of the least key, and returns what the merge keeps of them.
    pub(crate) fn step<L: MergeLaw>(&mut self, law: &L) -> Result<Step, NoMemory>
        requires ready { L.ready law.now }
        requires sound { self.old.merger.failed ≡ false }
        requires given { self.old.merger.wanted ≡ [] }
        ensures scans { self.new.scans ≡ self.old.scans }
        ensures moves { IfOk result (λ step. Moves (merging_of self.old) step (merging_of self.new)) }
        ensures told { S.TELLS ≡ true → IfOk result (λ step.
            Builds (L.rule law.now) (merging_of self.old) step (merging_of self.new)) }
        ensures kept { self.new.merger.failed ≡ false → Keeps (merging_of self.old) (merging_of self.new) }
        ensures sound { OnOk result (self.new.merger.failed ≡ false) }
        ensures failed { OnErr result (self.new.merger.failed ≡ true) }
    {
        self.merger.step(law)
    }
}

/// A scan of the branch, whose entries are in the order of their keys where pages are told.
fn scan_of<S: Seal>(
    alloc: Global,
    branch: &Arc<Branch<S>>,
    span: &Span,
) -> Result<Scan<S>, NoMemory>
    ensures scan { IfOk result (λ scan. scan ≡ fresh_scan span.now branch.now.value) }
    ensures order { S.TELLS ≡ true → AreEntries (entries_in branch.now.value) }
{
    let _entries = branch.entries();
    let shared = branch.clone()?;
    Ok(Scan::new(alloc, shared, span))
}

/// The bytes of an entry's key are those of a key.
fn has_key(entry: &Option<(Key, Message)>)
    ensures { IfSome entry.now (λ next. IsKey next.0) }
{
    if let Some((key, _)) = entry {
        let _bytes = key.bytes();
    }
}
