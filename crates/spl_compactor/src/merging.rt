//! How the branches of a run become one.
ghost use Rattle.std.specs.Prelude.{◌≡◌, ◌<◌, ◌^◌, ℕ, false, true, map, Ok, IfErr, IfOk, IfSome, OnOk};
ghost use Rattle.spl_desk.specs.Branches.{branch_kind};
ghost use Rattle.spl_desk.specs.Calls.{HasSeen, MadeFew, NeverFell};
ghost use Rattle.spl_desk.specs.Quiet.{HasWorkCause, IsQuiet};
ghost use Rattle.spl_enter.specs.Turning.{HasTurnCause};
ghost use Rattle.spl_streams.specs.Above.{keys_left};
ghost use Rattle.spl_streams.specs.Merging.{Gives, IsNext, Keeps};
ghost use Rattle.spl_compactor.specs.Compacting.{IsMergedOut, IsStarted, IsToPlace, IsUnderWay, IsWritten, no_grip};
ghost use Rattle.spl_compactor.specs.Stopping.{AllTold, HasReadCause, of_branch};

use spl_base::NoMemory;
use spl_branch::{Branch, BranchFault};
use spl_build::Builder;
use spl_desk::{CallFault, Desk, Turns};
use spl_enter::check_turns;
use spl_job::steps::publish;
use spl_message::{Key, MergeLaw, Message};
use spl_output::{add, finish};
use spl_pager::Pager;
use spl_port::{Port, Seal};
use spl_state::Ticket;
use spl_streams::Merged;
use std::alloc::Global;
use std::sync::Arc;

/// The fault of a call for a fault of a branch.
fn fault_of(fault: BranchFault) -> CallFault
    ensures { result ≡ of_branch fault }
{
    match fault {
        BranchFault::Fault => CallFault::Fault,
        BranchFault::Damaged(damaged) => CallFault::Damaged(damaged),
        BranchFault::NoMemory => CallFault::NoMemory,
    }
}

/// Where a device tells its pages, each branch tells all of its own.
fn are_told<S: Seal>(branches: &[Arc<Branch<S>>])
    ensures { S.TELLS ≡ true → AllTold (map (λ branch. branch.value) branches.now) }
{
    for branch in branches {
        let _leaves = branch.leaves();
    }
}

/// The next entry of the merge, or none at its end.
fn next_entry<P: Port, G: Pager, L: MergeLaw>(
    port: &mut P,
    pager: &G,
    law: &L,
    merged: &mut Merged<P::Seal>,
) -> Result<Option<(Key, Message)>, CallFault>
    requires ready { L.ready law.now }
    requires sound { merged.old.failed ≡ false }
    requires known { P.Seal.TELLS ≡ true → AllTold merged.old.branches }
    ensures told { P.Seal.TELLS ≡ true → IfOk result (λ given. Gives (L.rule law.now) merged.old given merged.new) }
    ensures rises { IfOk result (λ given. IfSome given (λ entry. IsNext merged.old entry.0 merged.new)) }
    ensures kept { OnOk result (Keeps merged.old merged.new) }
    ensures sound { OnOk result (merged.new.failed ≡ false) }
    ensures counts { NeverFell (P.counts port.old) (P.counts port.new) }
    ensures faults { OnOk result ((P.counts port.new).faults ≡ (P.counts port.old).faults) }
    ensures cause { IfErr result (HasReadCause P.Seal.TELLS (P.counts port.old) (P.counts port.new)) }
{
    match merged.next(port, pager, law) {
        Ok(given) => Ok(given),
        Err(fault) => Err(fault_of(fault)),
    }
}

/// Moves the next entry of the merge into the branch. Returns `false` if there is none.
fn merge_once<P: Port, T: Turns<Branch<P::Seal>>, G: Pager, L: MergeLaw>(
    turns: &mut T,
    port: &mut P,
    pager: &G,
    law: &L,
    merged: &mut Merged<P::Seal>,
    builder: &mut Builder<P>,
) -> Result<bool, CallFault>
    requires turns { (T.means turns.old).turns < 2 ^ 41 }
    requires ready { T.ready turns.old }
    requires seen { HasSeen (T.saw turns.old) }
    requires law { L.rule law.now ≡ (T.means turns.old).rule }
    requires lawful { L.ready law.now }
    requires under_way { IsUnderWay P.Seal.TELLS (T.means turns.old) 0 builder.old merged.old }
    ensures quiet { IsQuiet (branch_kind P.Seal.TELLS) (T.means turns.old) (T.saw turns.old)
        (T.means turns.new) (T.saw turns.new) }
    ensures few { MadeFew (T.means turns.old) (T.means turns.new) 0 }
    ensures ready { T.ready turns.new }
    ensures goes_on { result ≡ Ok true → (least : ℕ)
        → IsUnderWay P.Seal.TELLS (T.means turns.old) least builder.old merged.old
        → IsUnderWay P.Seal.TELLS (T.means turns.new) least builder.new merged.new }
    ensures fewer { result ≡ Ok true → keys_left merged.new.last < keys_left merged.old.last }
    ensures ended { result ≡ Ok false → (least : ℕ)
        → IsUnderWay P.Seal.TELLS (T.means turns.old) least builder.old merged.old
        → IsMergedOut P.Seal.TELLS (T.means turns.new) least builder.new }
    ensures port { NeverFell (P.counts port.old) (P.counts port.new) }
    ensures faults { OnOk result ((P.counts port.new).faults ≡ (P.counts port.old).faults) }
    ensures cause { IfErr result (HasWorkCause (branch_kind P.Seal.TELLS) (T.means turns.old) (T.saw turns.old)
        (T.means turns.new) (T.saw turns.new) (P.counts port.old) (P.counts port.new)) }
{
    let Some(entry) = next_entry(port, pager, law, merged)? else {
        return Ok(false);
    };
    let (key, message) = &entry;
    let _bytes = key.bytes();
    add(turns, port, builder, key, message)?;
    Ok(true)
}

/// Moves all entries of the merge into the branch.
fn merge_all<P: Port, T: Turns<Branch<P::Seal>>, G: Pager, L: MergeLaw>(
    turns: &mut T,
    port: &mut P,
    pager: &G,
    law: &L,
    merged: &mut Merged<P::Seal>,
    builder: &mut Builder<P>,
) -> Result<(), CallFault>
    requires turns { (T.means turns.old).turns < 2 ^ 41 }
    requires ready { T.ready turns.old }
    requires seen { HasSeen (T.saw turns.old) }
    requires law { L.rule law.now ≡ (T.means turns.old).rule }
    requires lawful { L.ready law.now }
    requires under_way { IsUnderWay P.Seal.TELLS (T.means turns.old) 0 builder.old merged.old }
    ensures quiet { IsQuiet (branch_kind P.Seal.TELLS) (T.means turns.old) (T.saw turns.old)
        (T.means turns.new) (T.saw turns.new) }
    ensures few { MadeFew (T.means turns.old) (T.means turns.new) 0 }
    ensures ready { T.ready turns.new }
    ensures merged { OnOk result ((least : ℕ)
        → IsUnderWay P.Seal.TELLS (T.means turns.old) least builder.old merged.old
        → IsMergedOut P.Seal.TELLS (T.means turns.new) least builder.new) }
    ensures port { NeverFell (P.counts port.old) (P.counts port.new) }
    ensures faults { OnOk result ((P.counts port.new).faults ≡ (P.counts port.old).faults) }
    ensures cause { IfErr result (HasWorkCause (branch_kind P.Seal.TELLS) (T.means turns.old) (T.saw turns.old)
        (T.means turns.new) (T.saw turns.new) (P.counts port.old) (P.counts port.new)) }
{
    loop {
        if !merge_once(turns, port, pager, law, merged, builder)? {
            return Ok(());
        }
    }
}

/// Writes the rest of the branch, if it has an entry.
fn write_out<P: Port, T: Turns<Branch<P::Seal>>>(
    turns: &mut T,
    port: &mut P,
    builder: &mut Builder<P>,
) -> Result<Option<Branch<P::Seal>>, CallFault>
    requires turns { (T.means turns.old).turns < 2 ^ 41 }
    requires ready { T.ready turns.old }
    requires seen { HasSeen (T.saw turns.old) }
    requires merged { IsMergedOut P.Seal.TELLS (T.means turns.old) 0 builder.old }
    ensures quiet { IsQuiet (branch_kind P.Seal.TELLS) (T.means turns.old) (T.saw turns.old)
        (T.means turns.new) (T.saw turns.new) }
    ensures few { MadeFew (T.means turns.old) (T.means turns.new) 0 }
    ensures ready { T.ready turns.new }
    ensures written { (least : ℕ) → IsMergedOut P.Seal.TELLS (T.means turns.old) least builder.old
        → IfOk result (IsWritten P.Seal.TELLS (T.means turns.new) least) }
    ensures port { NeverFell (P.counts port.old) (P.counts port.new) }
    ensures faults { OnOk result ((P.counts port.new).faults ≡ (P.counts port.old).faults) }
    ensures cause { IfErr result (HasWorkCause (branch_kind P.Seal.TELLS) (T.means turns.old) (T.saw turns.old)
        (T.means turns.new) (T.saw turns.new) (P.counts port.old) (P.counts port.new)) }
{
    finish(turns, port, builder)
}

/// Merges the branches of the ticket into one, which is written. Returns none if they merge to nothing.
pub(crate) fn merge<T: Turns<Branch<P::Seal>>, P: Port, G: Pager, L: MergeLaw>(
    desk: &mut Desk<'_, T, P, G, L>,
    ticket: &Ticket<Branch<P::Seal>>,
) -> Result<Option<Branch<P::Seal>>, CallFault>
    requires turns { (T.means desk.old.turns).turns < 2 ^ 41 }
    requires ready { T.ready desk.old.turns }
    requires seen { HasSeen (T.saw desk.old.turns) }
    requires law { L.rule desk.old.law.now ≡ (T.means desk.old.turns).rule }
    requires lawful { L.ready desk.old.law.now }
    requires started { IsStarted (T.means desk.old.turns) 0 ticket.now }
    ensures quiet { IsQuiet (branch_kind P.Seal.TELLS) (T.means desk.old.turns) (T.saw desk.old.turns)
        (T.means desk.new.turns) (T.saw desk.new.turns) }
    ensures few { MadeFew (T.means desk.old.turns) (T.means desk.new.turns) 0 }
    ensures ready { T.ready desk.new.turns }
    ensures law { desk.new.law.now ≡ desk.old.law.now }
    ensures pager { desk.new.pager.now ≡ desk.old.pager.now }
    ensures device { desk.new.port.ghost_name ≡ desk.old.port.ghost_name }
    ensures port { NeverFell (P.counts desk.old.port.now) (P.counts desk.new.port.now) }
    ensures written { (least : ℕ) → IsStarted (T.means desk.old.turns) least ticket.now
        → IfOk result (IsWritten P.Seal.TELLS (T.means desk.new.turns) least) }
    ensures faults { OnOk result ((P.counts desk.new.port.now).faults ≡ (P.counts desk.old.port.now).faults) }
    ensures cause { IfErr result (HasWorkCause (branch_kind P.Seal.TELLS) (T.means desk.old.turns)
        (T.saw desk.old.turns) (T.means desk.new.turns) (T.saw desk.new.turns)
        (P.counts desk.old.port.now) (P.counts desk.new.port.now)) }
{
    let inputs = ticket.inputs.as_slice();
    are_told(inputs);
    let mut merged = Merged::new(desk.alloc, inputs, &ticket.span, ticket.bottom)?;
    let mut builder = Builder::new(desk.alloc, ticket.number);
    merge_all(
        &mut desk.turns,
        desk.port,
        desk.pager,
        desk.law,
        &mut merged,
        &mut builder,
    )?;
    write_out(&mut desk.turns, desk.port, &mut builder)
}

/// The branch as a shared pointer.
fn shared<S: Seal>(alloc: Global, branch: Branch<S>) -> Result<Arc<Branch<S>>, NoMemory>
    ensures { IfOk result (λ shared. shared.value ≡ branch) }
{
    Ok(Arc::new(alloc, branch)?)
}

/// Publishes the branch, if there is one.
pub(crate) fn publish_output<S: Seal, T: Turns<Branch<S>>>(
    alloc: Global,
    turns: &mut T,
    output: Option<Branch<S>>,
) -> Result<bool, CallFault>
    requires turns { (T.means turns.old).turns < 2 ^ 41 }
    requires ready { T.ready turns.old }
    requires seen { HasSeen (T.saw turns.old) }
    requires written { IsWritten S.TELLS (T.means turns.old) 0 output }
    ensures quiet { IsQuiet (branch_kind S.TELLS) (T.means turns.old) (T.saw turns.old)
        (T.means turns.new) (T.saw turns.new) }
    ensures few { MadeFew (T.means turns.old) (T.means turns.new) 0 }
    ensures ready { T.ready turns.new }
    ensures to_place { (least : ℕ) → IsWritten S.TELLS (T.means turns.old) least output
        → IfOk result (λ published. IsToPlace S.TELLS (T.means turns.new) least published no_grip) }
    ensures cause { IfErr result (HasTurnCause (T.means turns.new)) }
{
    let Some(branch) = output else {
        return Ok(false);
    };
    check_turns(turns)?;
    let branch = shared(alloc, branch)?;
    publish(turns, branch)?;
    Ok(true)
}
