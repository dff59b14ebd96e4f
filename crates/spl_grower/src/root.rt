//! How the root is raised.
ghost use Rattle.std.specs.Prelude.{◌≡◌, ◌+◌, ◌<◌, ◌≤◌, ◌^◌, IfErr, IfOk, OnErr, OnOk};
ghost use Rattle.spl_message.specs.History.{History};
ghost use Rattle.spl_holds.specs.declared.grip.Grip.TheVariants as grip;
ghost use Rattle.spl_state.specs.View.{branch_data};
ghost use Rattle.spl_desk.specs.Calls.{HasSeen, MadeFew, MayCall};
ghost use Rattle.spl_desk.specs.Holder.{kind_of};
ghost use Rattle.spl_desk.specs.Quiet.{IsQuiet, WasMade};
ghost use Rattle.spl_job.specs.Holding.{Holding, Holds, told_by};
ghost use Rattle.spl_grower.specs.Ends.{IsRootEnd};
ghost use Rattle.spl_grower.specs.Stopping.{HasGrowCause};

use crate::Grown;
use spl_desk::{CallFault, Turns};
use spl_enter::{check_turns, enter};
use spl_job::growing::{Raising, raise};
use spl_job::merging::survey;
use spl_job::steps::abandon;
use spl_message::Content;

/// The root of the trunk.
const ROOT: u32 = 0;

/// Raises the root, which the actor writes, if it is to be split.
fn raise_due<B: Content, T: Turns<B>>(turns: &mut T) -> Result<Grown, CallFault>
    requires turns { (T.means turns.old).turns < 2 ^ 41 }
    requires ready { T.ready turns.old }
    requires seen { HasSeen (T.saw turns.old) }
    requires writes { (holding : Holding) × Holds (T.means turns.old) holding × (holding.grips 0 ≡ grip.Write) }
    ensures quiet { IsQuiet (kind_of B.number (branch_data B.extents B.entries B.cuts B.table) B.TELLS)
        (T.means turns.old) (T.saw turns.old) (T.means turns.new) (T.saw turns.new) }
    ensures few { MadeFew (T.means turns.old) (T.means turns.new) 0 }
    ensures ready { T.ready turns.new }
    ensures left { OnOk result ((T.means turns.old).turns < (T.means turns.new).turns) }
    ensures most { (T.means turns.new).turns ≤ (T.means turns.old).turns + 2 }
    ensures told { OnOk result (told_by (T.means turns.old) ≤ told_by (T.means turns.new)) }
    ensures made { (history : History) → T.saw turns.old history → IfOk result (λ grown. WasMade
        (kind_of B.number (branch_data B.extents B.entries B.cuts B.table) B.TELLS)
        (T.means turns.old) history (T.means turns.new) (T.saw turns.new) (IsRootEnd grown)) }
    ensures cause { IfErr result (HasGrowCause (kind_of B.number (branch_data B.extents B.entries B.cuts B.table) B.TELLS)
        (T.means turns.old) (T.saw turns.old) (T.means turns.new) (T.saw turns.new)) }
{
    check_turns(turns)?;
    let view = survey(turns, ROOT)?;
    if view.split.is_none() {
        return Ok(Grown::Unneeded);
    }
    check_turns(turns)?;
    match raise(turns)? {
        Raising::Done => Ok(Grown::Done),
        Raising::Nodes => Err(CallFault::Nodes),
    }
}

/// Takes the write latch of the root, and raises it if it is to be split.
fn enter_and_raise<B: Content, T: Turns<B>>(turns: &mut T) -> Result<Grown, CallFault>
    requires turns { (T.means turns.old).turns < 2 ^ 41 }
    requires ready { T.ready turns.old }
    requires seen { HasSeen (T.saw turns.old) }
    requires nothing { MayCall (T.means turns.old) }
    requires known { 0 < told_by (T.means turns.old) }
    ensures quiet { IsQuiet (kind_of B.number (branch_data B.extents B.entries B.cuts B.table) B.TELLS)
        (T.means turns.old) (T.saw turns.old) (T.means turns.new) (T.saw turns.new) }
    ensures few { MadeFew (T.means turns.old) (T.means turns.new) 0 }
    ensures ready { T.ready turns.new }
    ensures left { OnOk result ((T.means turns.old).turns < (T.means turns.new).turns) }
    ensures most { (T.means turns.new).turns ≤ (T.means turns.old).turns + 4 }
    ensures told { OnOk result (told_by (T.means turns.old) ≤ told_by (T.means turns.new)) }
    ensures made { (history : History) → T.saw turns.old history → IfOk result (λ grown. WasMade
        (kind_of B.number (branch_data B.extents B.entries B.cuts B.table) B.TELLS)
        (T.means turns.old) history (T.means turns.new) (T.saw turns.new) (IsRootEnd grown)) }
    ensures cause { IfErr result (HasGrowCause (kind_of B.number (branch_data B.extents B.entries B.cuts B.table) B.TELLS)
        (T.means turns.old) (T.saw turns.old) (T.means turns.new) (T.saw turns.new)) }
{
    if enter(turns, ROOT)? {
        raise_due(turns)
    } else {
        Ok(Grown::Busy)
    }
}

/// Does the same, and stops if the holder has no steps left to give back what the actor has.
fn raise_or_stop<B: Content, T: Turns<B>>(turns: &mut T) -> Result<Grown, CallFault>
    requires turns { (T.means turns.old).turns < 2 ^ 41 }
    requires ready { T.ready turns.old }
    requires seen { HasSeen (T.saw turns.old) }
    requires nothing { MayCall (T.means turns.old) }
    requires known { 0 < told_by (T.means turns.old) }
    ensures quiet { IsQuiet (kind_of B.number (branch_data B.extents B.entries B.cuts B.table) B.TELLS)
        (T.means turns.old) (T.saw turns.old) (T.means turns.new) (T.saw turns.new) }
    ensures few { MadeFew (T.means turns.old) (T.means turns.new) 0 }
    ensures ready { T.ready turns.new }
    ensures left { OnOk result ((T.means turns.old).turns < (T.means turns.new).turns) }
    ensures most { (T.means turns.new).turns ≤ (T.means turns.old).turns + 4 }
    ensures told { OnOk result (told_by (T.means turns.old) ≤ told_by (T.means turns.new)) }
    ensures room { OnOk result ((T.means turns.new).turns < 2 ^ 40) }
    ensures made { (history : History) → T.saw turns.old history → IfOk result (λ grown. WasMade
        (kind_of B.number (branch_data B.extents B.entries B.cuts B.table) B.TELLS)
        (T.means turns.old) history (T.means turns.new) (T.saw turns.new) (IsRootEnd grown)) }
    ensures cause { IfErr result (HasGrowCause (kind_of B.number (branch_data B.extents B.entries B.cuts B.table) B.TELLS)
        (T.means turns.old) (T.saw turns.old) (T.means turns.new) (T.saw turns.new)) }
{
    let grown = enter_and_raise(turns)?;
    check_turns(turns)?;
    Ok(grown)
}

/// Raises the root over a new node, if the root is to be split. However it ends, the actor has nothing afterwards.
pub fn raise_root<B: Content, T: Turns<B>>(turns: &mut T) -> Result<Grown, CallFault>
    requires turns { (T.means turns.old).turns < 2 ^ 41 }
    requires ready { T.ready turns.old }
    requires seen { HasSeen (T.saw turns.old) }
    requires nothing { MayCall (T.means turns.old) }
    requires known { 0 < told_by (T.means turns.old) }
    ensures quiet { IsQuiet (kind_of B.number (branch_data B.extents B.entries B.cuts B.table) B.TELLS)
        (T.means turns.old) (T.saw turns.old) (T.means turns.new) (T.saw turns.new) }
    ensures nothing { MayCall (T.means turns.new) }
    ensures ready { T.ready turns.new }
    ensures ok_few { OnOk result (MadeFew (T.means turns.old) (T.means turns.new) 0) }
    ensures err_few { OnErr result (MadeFew (T.means turns.old) (T.means turns.new) 1) }
    ensures left { OnOk result ((T.means turns.old).turns < (T.means turns.new).turns) }

    // Nothing is waited for.
    ensures most { (T.means turns.new).turns ≤ (T.means turns.old).turns + 5 }
    ensures told { OnOk result (told_by (T.means turns.old) ≤ told_by (T.means turns.new)) }

    // A turn of this call shows the result.
    ensures made { (history : History) → T.saw turns.old history → IfOk result (λ grown. WasMade
        (kind_of B.number (branch_data B.extents B.entries B.cuts B.table) B.TELLS)
        (T.means turns.old) history (T.means turns.new) (T.saw turns.new) (IsRootEnd grown)) }
    ensures cause { IfErr result (HasGrowCause (kind_of B.number (branch_data B.extents B.entries B.cuts B.table) B.TELLS)
        (T.means turns.old) (T.saw turns.old) (T.means turns.new) (T.saw turns.new)) }
{
    let outcome = raise_or_stop(turns);
    abandon(turns);
    outcome
}
