//! Reading the tables of a node, the newest first: what an older one has of a key goes under what is in hand.
ghost use Rattle.std.specs.Prelude.{◌≡◌, ◌<◌, ℕ, List, [], false, true, map, option_to_list, Ok, IfErr, IfOk, OnOk};
ghost use Rattle.spl_message.specs.Entries.{AreEntries};
ghost use Rattle.spl_message.specs.Table.{chain, message_at};
ghost use Rattle.spl_branch.specs.Branch.{entries_in, table_of};
ghost use Rattle.spl_branch.specs.Pages.{AreTold};
ghost use Rattle.spl_branch.specs.Reading.{OnlyReads};
ghost use Rattle.spl_scan.specs.Scan.{left_of};
ghost use Rattle.spl_streams.specs.Above.{keys_left};
ghost use Rattle.spl_streams.specs.Streams.{fresh_scan};
ghost use Rattle.spl_range.specs.Adding.{AddsAt, AddsUnder, ComeTo};
ghost use Rattle.spl_range.specs.Stopping.{HasReadCause, of_branch};

use crate::found::put_under;
use crate::latest::Latest;
use spl_base::NoMemory;
use spl_branch::{Branch, BranchFault};
use spl_desk::CallFault;
use spl_memtable::Slice;
use spl_message::{Content, Key, MergeLaw, Message, Span};
use spl_pager::Pager;
use spl_port::{Port, Seal};
use spl_scan::Scan;
use spl_state::Branches;
use spl_tables::Slices;
use std::alloc::Global;
use std::collections::BTreeMap;
use std::sync::Arc;

/// Puts what a part of a memtable has under what is in hand.
fn add_slice<L: MergeLaw>(
    alloc: Global,
    law: &L,
    slice: &Slice,
    found: &mut BTreeMap<Key, Message>,
) -> Result<(), NoMemory>
    requires { L.ready law.now }
    ensures { OnOk result (ComeTo (L.rule law.now) [] found.new.entries slice.now.messages found.old.entries) }
{
    for (key, message) in slice.entries() {
        put_under(alloc, law, found, key, message.copy()?)?;
    }
    Ok(())
}

/// Puts what the parts of the memtables have under what is in hand.
pub(crate) fn add_slices<L: MergeLaw>(
    alloc: Global,
    law: &L,
    slices: &Slices,
    found: &mut BTreeMap<Key, Message>,
) -> Result<(), NoMemory>
    requires { L.ready law.now }
    ensures { OnOk result ((key : List ℕ)
        → AddsAt (L.rule law.now) (chain slices.now) found.old.entries found.new.entries key) }
{
    let parts = slices.as_slice();
    let mut left = parts.len();
    while left > 0 {
        left -= 1;
        add_slice(alloc, law, &parts[left], found)?;
    }
    Ok(())
}

/// What a branch's fault is to a call.
fn fault_of(fault: BranchFault) -> CallFault
    ensures { result ≡ of_branch fault }
{
    match fault {
        BranchFault::Fault => CallFault::Fault,
        BranchFault::Damaged(damaged) => CallFault::Damaged(damaged),
        BranchFault::NoMemory => CallFault::NoMemory,
    }
}

/// A scan of the branch. Where pages are told, so are those of the branch, and its entries are in order.
fn scan_of<S: Seal>(
    alloc: Global,
    branch: &Arc<Branch<S>>,
    span: &Span,
) -> Result<Scan<S>, NoMemory>
    ensures scan { IfOk result (λ scan. scan ≡ fresh_scan span.now branch.now.value) }
    ensures order { S.TELLS ≡ true → AreEntries (entries_in branch.now.value) }
    ensures told { S.TELLS ≡ true → AreTold branch.now.value.parts }
{
    let _entries = branch.entries();
    let _leaves = branch.leaves();
    let shared = branch.clone()?;
    Ok(Scan::new(alloc, shared, span))
}

/// Puts the next entry of the scan under what is in hand. Answers `false` where there is none.
fn add_entry<P: Port, G: Pager, L: MergeLaw>(
    alloc: Global,
    port: &mut P,
    pager: &G,
    law: &L,
    scan: &mut Scan<P::Seal>,
    found: &mut BTreeMap<Key, Message>,
) -> Result<bool, CallFault>
    requires ready { L.ready law.now }
    requires known { P.Seal.TELLS ≡ true → AreTold scan.old.branch.parts }
    ensures goes_on { P.Seal.TELLS ≡ true → AreEntries (left_of scan.old) → result ≡ Ok true
        → AreEntries (left_of scan.new)
        × ComeTo (L.rule law.now) (left_of scan.new) found.new.entries (left_of scan.old) found.old.entries }
    ensures ended { P.Seal.TELLS ≡ true → result ≡ Ok false
        → (left_of scan.old ≡ []) × (found.new.entries ≡ found.old.entries) }
    ensures fewer { result ≡ Ok true → keys_left scan.new.last < keys_left scan.old.last }
    ensures branch { OnOk result (scan.new.branch ≡ scan.old.branch) }
    ensures counts { OnlyReads (P.counts port.old) (P.counts port.new) }
    ensures faults { OnOk result ((P.counts port.new).faults ≡ (P.counts port.old).faults) }
    ensures cause { IfErr result (HasReadCause P.Seal.TELLS (P.counts port.old) (P.counts port.new)) }
{
    match scan.next(port, pager) {
        Ok(Some((key, message))) => {
            let _bytes = key.bytes();
            put_under(alloc, law, found, &key, message)?;
            Ok(true)
        }
        Ok(None) => Ok(false),
        Err(fault) => Err(fault_of(fault)),
    }
}

/// Puts what a branch has in the span under what is in hand.
fn add_branch<P: Port, G: Pager, L: MergeLaw>(
    alloc: Global,
    port: &mut P,
    pager: &G,
    law: &L,
    branch: &Arc<Branch<P::Seal>>,
    span: &Span,
    found: &mut BTreeMap<Key, Message>,
) -> Result<(), CallFault>
    requires { L.ready law.now }
    ensures told { P.Seal.TELLS ≡ true → OnOk result (AddsUnder (L.rule law.now) span.now
        (λ key. option_to_list (message_at (table_of branch.now.value) key)) found.old.entries found.new.entries) }
    ensures counts { OnlyReads (P.counts port.old) (P.counts port.new) }
    ensures faults { OnOk result ((P.counts port.new).faults ≡ (P.counts port.old).faults) }
    ensures cause { IfErr result (HasReadCause P.Seal.TELLS (P.counts port.old) (P.counts port.new)) }
{
    let latest = Latest::new(pager);
    let mut scan = scan_of(alloc, branch, span)?;
    loop {
        if !add_entry(alloc, port, &latest, law, &mut scan, found)? {
            return Ok(());
        }
    }
}

/// Puts what the branches have in the span under what is in hand.
pub(crate) fn add_branches<P: Port, G: Pager, L: MergeLaw>(
    alloc: Global,
    port: &mut P,
    pager: &G,
    law: &L,
    branches: &Branches<Branch<P::Seal>>,
    span: &Span,
    found: &mut BTreeMap<Key, Message>,
) -> Result<(), CallFault>
    requires { L.ready law.now }
    ensures told { P.Seal.TELLS ≡ true → OnOk result (AddsUnder (L.rule law.now) span.now
        (chain (map table_of branches.now)) found.old.entries found.new.entries) }
    ensures counts { OnlyReads (P.counts port.old) (P.counts port.new) }
    ensures faults { OnOk result ((P.counts port.new).faults ≡ (P.counts port.old).faults) }
    ensures cause { IfErr result (HasReadCause P.Seal.TELLS (P.counts port.old) (P.counts port.new)) }
{
    let shared = branches.as_slice();
    let mut left = shared.len();
    while left > 0 {
        left -= 1;
        add_branch(alloc, port, pager, law, &shared[left], span, found)?;
    }
    Ok(())
}
