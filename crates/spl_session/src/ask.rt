//! The messages that a key has in the tables of a node, combined into one.
ghost use Rattle.std.specs.Prelude.{◌≡◌, ◌∷◌, ◌++◌, ◌+◌, ◌≤◌, true, map, sum_by, option_to_list, IfOk, IfErr};
ghost use Rattle.spl_message.specs.Table.{chain, message_at};
ghost use Rattle.spl_branch.specs.Branch.{table_of};
ghost use Rattle.spl_branch.specs.Reading.{OnlyReads, reach_of};
ghost use Rattle.spl_session.specs.Asking.{Folds, HasReadCause, decides, of_branch};

use spl_base::NoMemory;
use spl_branch::{Branch, BranchFault};
use spl_desk::CallFault;
use spl_memtable::Slice;
use spl_message::{HashedKey, Key, MergeLaw, Message, combine, combine_owned};
use spl_pager::Pager;
use spl_port::Port;
use spl_state::Branches;
use spl_tables::Slices;
use std::alloc::Global;

/// Whether nothing below matters any more.
pub(crate) fn is_decided(found: &Option<Message>) -> bool
    ensures { result ≡ decides found.now }
{
    match found {
        Some(Message::Insert(_) | Message::Delete) => true,
        Some(Message::Update(_)) | None => false,
    }
}

/// One message for what an older table has of the key, and for what was found in newer ones.
fn ask_slice<L: MergeLaw>(
    alloc: Global,
    law: &L,
    key: &Key,
    slice: &Slice,
    found: Option<Message>,
) -> Result<Option<Message>, NoMemory>
    requires { L.ready law.now }
    ensures { IfOk result (Folds (L.rule law.now) key.now (option_to_list (message_at slice.now key.now) ++ option_to_list found)) }
{
    let Some(older) = slice.get(key) else {
        return Ok(found);
    };
    match found {
        Some(newer) => Ok(Some(combine(alloc, law, key, older, &newer)?)),
        None => Ok(Some(older.copy()?)),
    }
}

/// One message for those that the key has in the parts of the memtables.
pub(crate) fn ask_slices<L: MergeLaw>(
    alloc: Global,
    law: &L,
    key: &Key,
    slices: &Slices,
) -> Result<Option<Message>, NoMemory>
    requires { L.ready law.now }
    ensures { IfOk result (Folds (L.rule law.now) key.now (chain slices.now key.now)) }
{
    let parts = slices.as_slice();
    let mut found = None;
    let mut left = parts.len();
    while left > 0 {
        if is_decided(&found) {
            return Ok(found);
        }
        left -= 1;
        found = ask_slice(alloc, law, key, &parts[left], found)?;
    }
    Ok(found)
}

/// One message for an older one of the key, and for what was found in newer tables.
fn with_older<L: MergeLaw>(
    alloc: Global,
    law: &L,
    key: &Key,
    older: Message,
    found: Option<Message>,
) -> Result<Option<Message>, NoMemory>
    requires { L.ready law.now }
    ensures { IfOk result (Folds (L.rule law.now) key.now (older ∷ option_to_list found)) }
{
    match found {
        Some(newer) => Ok(Some(combine_owned(alloc, law, key, older, newer)?)),
        None => Ok(Some(older)),
    }
}

/// The fault of a call for a fault of a branch.
fn fault_of(fault: BranchFault) -> CallFault
    ensures { result ≡ of_branch fault }
{
    match fault {
        BranchFault::Fault => CallFault::Fault,
        BranchFault::Damaged(damaged) => CallFault::Damaged(damaged),
        BranchFault::NoMemory => CallFault::NoMemory,
    }
}

/// One message for what an older branch has of the key, and for what was found in newer tables.
fn ask_branch<P: Port, G: Pager, L: MergeLaw>(
    alloc: Global,
    port: &mut P,
    pager: &G,
    law: &L,
    key: &HashedKey,
    branch: &Branch<P::Seal>,
    found: Option<Message>,
) -> Result<Option<Message>, CallFault>
    requires { L.ready law.now }
    ensures told { P.Seal.TELLS ≡ true → IfOk result (Folds (L.rule law.now) key.now
        (option_to_list (message_at (table_of branch.now) key.now) ++ option_to_list found)) }
    ensures reach { P.Seal.TELLS ≡ true → (P.counts port.new).reads ≤ (P.counts port.old).reads + reach_of branch.now key.now }
    ensures counts { OnlyReads (P.counts port.old) (P.counts port.new) }
    ensures cause { IfErr result (HasReadCause P.Seal.TELLS (P.counts port.old) (P.counts port.new)) }
{
    // If the seals tell their pages, so does the branch.
    let _ = branch.leaves();
    match branch.get(port, pager, key) {
        Ok(Some(older)) => Ok(with_older(alloc, law, key.key(), older, found)?),
        Ok(None) => Ok(found),
        Err(fault) => Err(fault_of(fault)),
    }
}

/// One message for those that the key has in the branches, and for what was found in newer tables.
pub(crate) fn ask_branches<P: Port, G: Pager, L: MergeLaw>(
    alloc: Global,
    port: &mut P,
    pager: &G,
    law: &L,
    key: &HashedKey,
    branches: &Branches<Branch<P::Seal>>,
    found: Option<Message>,
) -> Result<Option<Message>, CallFault>
    requires { L.ready law.now }
    ensures told { P.Seal.TELLS ≡ true → IfOk result (Folds (L.rule law.now) key.now
        (chain (map table_of branches.now) key.now ++ option_to_list found)) }
    ensures reach { P.Seal.TELLS ≡ true → (P.counts port.new).reads
        ≤ (P.counts port.old).reads + sum_by (λ branch. reach_of branch key.now) branches.now }
    ensures counts { OnlyReads (P.counts port.old) (P.counts port.new) }
    ensures cause { IfErr result (HasReadCause P.Seal.TELLS (P.counts port.old) (P.counts port.new)) }
{
    let shared = branches.as_slice();
    let mut found = found;
    let mut left = shared.len();
    while left > 0 {
        if is_decided(&found) {
            return Ok(found);
        }
        left -= 1;
        found = ask_branch(alloc, port, pager, law, key, &shared[left], found)?;
    }
    Ok(found)
}
