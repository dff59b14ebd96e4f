//! How a published branch comes to hang at the root.
ghost use Rattle.std.specs.Prelude.{◌≡◌, ◌+◌, ◌<◌, ◌≤◌, ◌^◌, true, IfErr, IfOk, IfSome, OnOk};
ghost use Rattle.spl_state.specs.View.{branch_data};
ghost use Rattle.spl_holds.specs.declared.grip.Grip.TheVariants as grip;
ghost use Rattle.spl_holds.specs.Grip.{may_write};
ghost use Rattle.spl_desk.specs.Calls.{HasSeen, MadeFew};
ghost use Rattle.spl_desk.specs.Holder.{kind_of};
ghost use Rattle.spl_desk.specs.Quiet.{IsQuiet};
ghost use Rattle.spl_enter.specs.Turning.{HasTurnCause};
ghost use Rattle.spl_job.specs.Holding.{Holding, IsHolding, with_grip};
ghost use Rattle.spl_packer.specs.Outcomes.{WasPacked};
ghost use Rattle.spl_packer.specs.Packs.{AfterHang, AfterTry, IsToHang};

use crate::Packed;
use spl_desk::{CallFault, Turns};
use spl_enter::{check_turns, enter};
use spl_job::steps::{Hanging, incorporate, unlock};
use spl_message::Content;

/// The root of the trunk.
const ROOT: u32 = 0;

/// Ends the write on the root.
fn leave_root<B: Content, T: Turns<B>>(turns: &mut T) -> Result<(), CallFault>
    requires turns { (T.means turns.old).turns < 2 ^ 41 }
    requires ready { T.ready turns.old }
    requires seen { HasSeen (T.saw turns.old) }
    requires writes { (holding : Holding) × IsHolding (T.means turns.old) holding × (may_write (holding.grips 0) ≡ true) }
    ensures quiet { IsQuiet (kind_of B.number (branch_data B.extents B.entries B.cuts B.table) B.TELLS)
        (T.means turns.old) (T.saw turns.old) (T.means turns.new) (T.saw turns.new) }
    ensures few { MadeFew (T.means turns.old) (T.means turns.new) 0 }
    ensures ready { T.ready turns.new }
    ensures leaves { OnOk result ((holding : Holding) → IsHolding (T.means turns.old) holding
        → IsHolding (T.means turns.new) (with_grip holding 0 grip.Free)) }
    ensures left { OnOk result ((T.means turns.old).turns < (T.means turns.new).turns) }
    ensures most { (T.means turns.new).turns ≤ (T.means turns.old).turns + 1 }
    ensures cause { IfErr result (HasTurnCause (T.means turns.new)) }
{
    check_turns(turns)?;
    unlock(turns, ROOT);
    Ok(())
}

/// Hangs the branch at the root, which the actor writes. Answers none where somebody else has to hang an older one first.
fn hang_in_root<B: Content, T: Turns<B>>(turns: &mut T) -> Result<Option<Packed>, CallFault>
    requires turns { (T.means turns.old).turns < 2 ^ 41 }
    requires ready { T.ready turns.old }
    requires seen { HasSeen (T.saw turns.old) }
    requires writes { IsToHang (T.means turns.old) grip.Write }
    ensures quiet { IsQuiet (kind_of B.number (branch_data B.extents B.entries B.cuts B.table) B.TELLS)
        (T.means turns.old) (T.saw turns.old) (T.means turns.new) (T.saw turns.new) }
    ensures few { MadeFew (T.means turns.old) (T.means turns.new) 0 }
    ensures ready { T.ready turns.new }
    ensures tried { AfterTry (T.means turns.new) result }
    ensures made { IfOk result (λ tried. IfSome tried (WasPacked
        (kind_of B.number (branch_data B.extents B.entries B.cuts B.table) B.TELLS)
        (T.means turns.old) (T.saw turns.old) (T.means turns.new) (T.saw turns.new))) }
    ensures left { OnOk result ((T.means turns.old).turns < (T.means turns.new).turns) }
    ensures most { (T.means turns.new).turns ≤ (T.means turns.old).turns + 2 }
    ensures cause { IfErr result (HasTurnCause (T.means turns.new)) }
{
    check_turns(turns)?;
    match incorporate(turns) {
        Hanging::Done => {
            leave_root(turns)?;
            Ok(Some(Packed::Done))
        }
        Hanging::NotOldest { by: Some(_) } => {
            leave_root(turns)?;
            Ok(None)
        }
        Hanging::NotOldest { by: None } => Ok(Some(Packed::NotOldest)),
        Hanging::NeedsFlush => Ok(Some(Packed::NeedsFlush)),
    }
}

/// Tries once to hang the branch at the root. Answers none where it has to be tried again.
fn hang_once<B: Content, T: Turns<B>>(turns: &mut T) -> Result<Option<Packed>, CallFault>
    requires turns { (T.means turns.old).turns < 2 ^ 41 }
    requires ready { T.ready turns.old }
    requires seen { HasSeen (T.saw turns.old) }
    requires to_hang { IsToHang (T.means turns.old) grip.Free }
    ensures quiet { IsQuiet (kind_of B.number (branch_data B.extents B.entries B.cuts B.table) B.TELLS)
        (T.means turns.old) (T.saw turns.old) (T.means turns.new) (T.saw turns.new) }
    ensures few { MadeFew (T.means turns.old) (T.means turns.new) 0 }
    ensures ready { T.ready turns.new }
    ensures tried { AfterTry (T.means turns.new) result }
    ensures made { IfOk result (λ tried. IfSome tried (WasPacked
        (kind_of B.number (branch_data B.extents B.entries B.cuts B.table) B.TELLS)
        (T.means turns.old) (T.saw turns.old) (T.means turns.new) (T.saw turns.new))) }
    ensures left { OnOk result ((T.means turns.old).turns < (T.means turns.new).turns) }
    ensures most { (T.means turns.new).turns ≤ (T.means turns.old).turns + 5 }
    ensures cause { IfErr result (HasTurnCause (T.means turns.new)) }
{
    let _ = turns.actor();
    if enter(turns, ROOT)? {
        hang_in_root(turns)
    } else {
        Ok(None)
    }
}

/// Hangs the branch at the root, in its turn.
pub(crate) fn hang<B: Content, T: Turns<B>>(turns: &mut T) -> Result<Packed, CallFault>
    requires turns { (T.means turns.old).turns < 2 ^ 41 }
    requires ready { T.ready turns.old }
    requires seen { HasSeen (T.saw turns.old) }
    requires to_hang { IsToHang (T.means turns.old) grip.Free }
    ensures quiet { IsQuiet (kind_of B.number (branch_data B.extents B.entries B.cuts B.table) B.TELLS)
        (T.means turns.old) (T.saw turns.old) (T.means turns.new) (T.saw turns.new) }
    ensures few { MadeFew (T.means turns.old) (T.means turns.new) 0 }
    ensures ready { T.ready turns.new }
    ensures hung { AfterHang (T.means turns.new) result }
    ensures made { IfOk result (WasPacked
        (kind_of B.number (branch_data B.extents B.entries B.cuts B.table) B.TELLS)
        (T.means turns.old) (T.saw turns.old) (T.means turns.new) (T.saw turns.new)) }
    ensures left { OnOk result ((T.means turns.old).turns < (T.means turns.new).turns) }
    ensures cause { IfErr result (HasTurnCause (T.means turns.new)) }
{
    loop {
        if let Some(packed) = hang_once(turns)? {
            return Ok(packed);
        }
    }
}
