//! The branch of a picked memtable.
ghost use Rattle.std.specs.Prelude.{◌≡◌, ◌<◌, ◌^◌, [], IfErr, IfOk, OnOk};
ghost use Rattle.spl_holds.specs.declared.grip.Grip.TheVariants.{Free};
ghost use Rattle.spl_desk.specs.Branches.{branch_kind};
ghost use Rattle.spl_desk.specs.Calls.{HasSeen, MadeFew, NeverFell};
ghost use Rattle.spl_desk.specs.Quiet.{HasWorkCause, IsQuiet};
ghost use Rattle.spl_enter.specs.Turning.{HasTurnCause};
ghost use Rattle.spl_packer.specs.Packs.{HasPicked, IsBuilt, IsFilling, IsToHang};

use spl_base::NoMemory;
use spl_branch::Branch;
use spl_build::Builder;
use spl_desk::{CallFault, Turns};
use spl_enter::check_turns;
use spl_job::steps::{Picked, publish};
use spl_output::{add, finish};
use spl_port::{Port, Seal};
use std::alloc::Global;
use std::sync::Arc;

/// Adds what the table has to the branch, in the order of the keys.
fn fill<P: Port, T: Turns<Branch<P::Seal>>>(
    turns: &mut T,
    port: &mut P,
    builder: &mut Builder<P>,
    picked: &Picked,
) -> Result<(), CallFault>
    requires turns { (T.means turns.old).turns < 2 ^ 41 }
    requires ready { T.ready turns.old }
    requires seen { HasSeen (T.saw turns.old) }
    requires begun { IsFilling P.Seal.TELLS (T.means turns.old) builder.old picked.now picked.now.table.messages }
    ensures quiet { IsQuiet (branch_kind P.Seal.TELLS) (T.means turns.old) (T.saw turns.old) (T.means turns.new) (T.saw turns.new) }
    ensures few { MadeFew (T.means turns.old) (T.means turns.new) 0 }
    ensures ready { T.ready turns.new }
    ensures filled { OnOk result (IsFilling P.Seal.TELLS (T.means turns.new) builder.new picked.now []) }
    ensures port { NeverFell (P.counts port.old) (P.counts port.new) }
    ensures faults { OnOk result ((P.counts port.new).faults ≡ (P.counts port.old).faults) }
    ensures cause { IfErr result (HasWorkCause (branch_kind P.Seal.TELLS) (T.means turns.old) (T.saw turns.old)
        (T.means turns.new) (T.saw turns.new) (P.counts port.old) (P.counts port.new)) }
{
    for (key, message) in picked.table.entries() {
        add(turns, port, builder, key, message)?;
    }
    Ok(())
}

/// Writes the branch of the picked table.
pub(crate) fn build<P: Port, T: Turns<Branch<P::Seal>>>(
    alloc: Global,
    turns: &mut T,
    port: &mut P,
    picked: &Picked,
) -> Result<Branch<P::Seal>, CallFault>
    requires turns { (T.means turns.old).turns < 2 ^ 41 }
    requires ready { T.ready turns.old }
    requires seen { HasSeen (T.saw turns.old) }
    requires picked { HasPicked (T.means turns.old) picked.now [] }
    ensures quiet { IsQuiet (branch_kind P.Seal.TELLS) (T.means turns.old) (T.saw turns.old) (T.means turns.new) (T.saw turns.new) }
    ensures few { MadeFew (T.means turns.old) (T.means turns.new) 0 }
    ensures ready { T.ready turns.new }
    ensures built { IfOk result (IsBuilt P.Seal.TELLS (T.means turns.new)) }
    ensures port { NeverFell (P.counts port.old) (P.counts port.new) }
    ensures faults { OnOk result ((P.counts port.new).faults ≡ (P.counts port.old).faults) }
    ensures cause { IfErr result (HasWorkCause (branch_kind P.Seal.TELLS) (T.means turns.old) (T.saw turns.old)
        (T.means turns.new) (T.saw turns.new) (P.counts port.old) (P.counts port.new)) }
{
    let mut builder = Builder::new(alloc, picked.number);
    fill(turns, port, &mut builder, picked)?;
    match finish(turns, port, &mut builder)? {
        Some(branch) => Ok(branch),
        None => unreachable!(),
    }
}

/// The branch as a shared pointer.
fn shared<S: Seal>(alloc: Global, branch: Branch<S>) -> Result<Arc<Branch<S>>, NoMemory>
    ensures { IfOk result (λ shared. shared.value ≡ branch) }
{
    Ok(Arc::new(alloc, branch)?)
}

/// Publishes the branch.
pub(crate) fn publish_built<S: Seal, T: Turns<Branch<S>>>(
    alloc: Global,
    turns: &mut T,
    branch: Branch<S>,
) -> Result<(), CallFault>
    requires turns { (T.means turns.old).turns < 2 ^ 41 }
    requires ready { T.ready turns.old }
    requires seen { HasSeen (T.saw turns.old) }
    requires built { IsBuilt S.TELLS (T.means turns.old) branch }
    ensures quiet { IsQuiet (branch_kind S.TELLS) (T.means turns.old) (T.saw turns.old) (T.means turns.new) (T.saw turns.new) }
    ensures few { MadeFew (T.means turns.old) (T.means turns.new) 0 }
    ensures ready { T.ready turns.new }
    ensures published { OnOk result (IsToHang (T.means turns.new) Free) }
    ensures cause { IfErr result (HasTurnCause (T.means turns.new)) }
{
    check_turns(turns)?;
    let branch = shared(alloc, branch)?;
    publish(turns, branch)?;
    Ok(())
}
