//! How a child is split.
ghost use Rattle.std.specs.Prelude.{◌≡◌, ◌≢◌, ◌+◌, ◌<◌, ◌≤◌, ◌^◌, IfErr, IfOk, OnErr, OnOk};
ghost use Rattle.spl_message.specs.History.{History};
ghost use Rattle.spl_holds.specs.declared.grip.Grip.TheVariants as grip;
ghost use Rattle.spl_state.specs.View.{branch_data};
ghost use Rattle.spl_desk.specs.Calls.{HasSeen, MadeFew, MayCall};
ghost use Rattle.spl_desk.specs.Holder.{kind_of};
ghost use Rattle.spl_desk.specs.Quiet.{IsQuiet, WasMade};
ghost use Rattle.spl_job.specs.Holding.{Holding, Holds, told_by};
ghost use Rattle.spl_grower.specs.Ends.{IsChildEnd};
ghost use Rattle.spl_grower.specs.Stopping.{HasGrowCause};

use crate::Grown;
use spl_desk::{CallFault, Turns};
use spl_enter::{check_turns, enter_both};
use spl_job::growing::{Splitting, split};
use spl_job::merging::survey;
use spl_job::steps::abandon;
use spl_message::Content;

/// Splits the child, if it is to be split. The actor writes it and its parent.
fn split_due<B: Content, T: Turns<B>>(
    turns: &mut T,
    parent: u32,
    child: u32,
) -> Result<Grown, CallFault>
    requires turns { (T.means turns.old).turns < 2 ^ 41 }
    requires ready { T.ready turns.old }
    requires seen { HasSeen (T.saw turns.old) }
    requires writes { (holding : Holding) × Holds (T.means turns.old) holding
        × (holding.grips parent ≡ grip.Write) × (holding.grips child ≡ grip.Write) × (child < holding.told) }
    ensures quiet { IsQuiet (kind_of B.number (branch_data B.extents B.entries B.cuts B.table) B.TELLS)
        (T.means turns.old) (T.saw turns.old) (T.means turns.new) (T.saw turns.new) }
    ensures few { MadeFew (T.means turns.old) (T.means turns.new) 0 }
    ensures ready { T.ready turns.new }
    ensures left { OnOk result ((T.means turns.old).turns < (T.means turns.new).turns) }
    ensures most { (T.means turns.new).turns ≤ (T.means turns.old).turns + 2 }
    ensures told { OnOk result (told_by (T.means turns.old) ≤ told_by (T.means turns.new)) }
    ensures made { (history : History) → T.saw turns.old history → IfOk result (λ grown. WasMade
        (kind_of B.number (branch_data B.extents B.entries B.cuts B.table) B.TELLS)
        (T.means turns.old) history (T.means turns.new) (T.saw turns.new) (IsChildEnd parent child grown)) }
    ensures cause { IfErr result (HasGrowCause (kind_of B.number (branch_data B.extents B.entries B.cuts B.table) B.TELLS)
        (T.means turns.old) (T.saw turns.old) (T.means turns.new) (T.saw turns.new)) }
{
    check_turns(turns)?;
    let view = survey(turns, child)?;
    let Some(key) = view.split else {
        return Ok(Grown::Unneeded);
    };
    check_turns(turns)?;
    match split(turns, parent, child, key)? {
        Splitting::Done => Ok(Grown::Done),
        Splitting::Pivots => Ok(Grown::Full),
        Splitting::Moved => Ok(Grown::Moved),
        Splitting::Nodes => Err(CallFault::Nodes),
        Splitting::Outside => unreachable!(),
    }
}

/// Takes the write latches of the parent and the child, and splits the child if it is to be split.
fn enter_and_split<B: Content, T: Turns<B>>(
    turns: &mut T,
    parent: u32,
    child: u32,
) -> Result<Grown, CallFault>
    requires turns { (T.means turns.old).turns < 2 ^ 41 }
    requires ready { T.ready turns.old }
    requires seen { HasSeen (T.saw turns.old) }
    requires nothing { MayCall (T.means turns.old) }
    requires parent { parent < told_by (T.means turns.old) }
    requires child { child < told_by (T.means turns.old) }
    requires apart { parent ≢ child }
    ensures quiet { IsQuiet (kind_of B.number (branch_data B.extents B.entries B.cuts B.table) B.TELLS)
        (T.means turns.old) (T.saw turns.old) (T.means turns.new) (T.saw turns.new) }
    ensures few { MadeFew (T.means turns.old) (T.means turns.new) 0 }
    ensures ready { T.ready turns.new }
    ensures left { OnOk result ((T.means turns.old).turns < (T.means turns.new).turns) }
    ensures most { (T.means turns.new).turns ≤ (T.means turns.old).turns + 6 }
    ensures told { OnOk result (told_by (T.means turns.old) ≤ told_by (T.means turns.new)) }
    ensures made { (history : History) → T.saw turns.old history → IfOk result (λ grown. WasMade
        (kind_of B.number (branch_data B.extents B.entries B.cuts B.table) B.TELLS)
        (T.means turns.old) history (T.means turns.new) (T.saw turns.new) (IsChildEnd parent child grown)) }
    ensures cause { IfErr result (HasGrowCause (kind_of B.number (branch_data B.extents B.entries B.cuts B.table) B.TELLS)
        (T.means turns.old) (T.saw turns.old) (T.means turns.new) (T.saw turns.new)) }
{
    if enter_both(turns, parent, child)? {
        split_due(turns, parent, child)
    } else {
        Ok(Grown::Busy)
    }
}

/// Does the same, and stops if the holder has no steps left to give back what the actor has.
fn split_or_stop<B: Content, T: Turns<B>>(
    turns: &mut T,
    parent: u32,
    child: u32,
) -> Result<Grown, CallFault>
    requires turns { (T.means turns.old).turns < 2 ^ 41 }
    requires ready { T.ready turns.old }
    requires seen { HasSeen (T.saw turns.old) }
    requires nothing { MayCall (T.means turns.old) }
    requires parent { parent < told_by (T.means turns.old) }
    requires child { child < told_by (T.means turns.old) }
    requires apart { parent ≢ child }
    ensures quiet { IsQuiet (kind_of B.number (branch_data B.extents B.entries B.cuts B.table) B.TELLS)
        (T.means turns.old) (T.saw turns.old) (T.means turns.new) (T.saw turns.new) }
    ensures few { MadeFew (T.means turns.old) (T.means turns.new) 0 }
    ensures ready { T.ready turns.new }
    ensures left { OnOk result ((T.means turns.old).turns < (T.means turns.new).turns) }
    ensures most { (T.means turns.new).turns ≤ (T.means turns.old).turns + 6 }
    ensures told { OnOk result (told_by (T.means turns.old) ≤ told_by (T.means turns.new)) }
    ensures room { OnOk result ((T.means turns.new).turns < 2 ^ 40) }
    ensures made { (history : History) → T.saw turns.old history → IfOk result (λ grown. WasMade
        (kind_of B.number (branch_data B.extents B.entries B.cuts B.table) B.TELLS)
        (T.means turns.old) history (T.means turns.new) (T.saw turns.new) (IsChildEnd parent child grown)) }
    ensures cause { IfErr result (HasGrowCause (kind_of B.number (branch_data B.extents B.entries B.cuts B.table) B.TELLS)
        (T.means turns.old) (T.saw turns.old) (T.means turns.new) (T.saw turns.new)) }
{
    let grown = enter_and_split(turns, parent, child)?;
    check_turns(turns)?;
    Ok(grown)
}

/// Splits the child in two, if it is to be split; the parent then leads to both parts. However it ends, the actor has
/// nothing afterwards.
pub fn split_child<B: Content, T: Turns<B>>(
    turns: &mut T,
    parent: u32,
    child: u32,
) -> Result<Grown, CallFault>
    requires turns { (T.means turns.old).turns < 2 ^ 41 }
    requires ready { T.ready turns.old }
    requires seen { HasSeen (T.saw turns.old) }
    requires nothing { MayCall (T.means turns.old) }
    requires parent { parent < told_by (T.means turns.old) }
    requires child { child < told_by (T.means turns.old) }
    requires apart { parent ≢ child }
    ensures quiet { IsQuiet (kind_of B.number (branch_data B.extents B.entries B.cuts B.table) B.TELLS)
        (T.means turns.old) (T.saw turns.old) (T.means turns.new) (T.saw turns.new) }
    ensures nothing { MayCall (T.means turns.new) }
    ensures ready { T.ready turns.new }
    ensures ok_few { OnOk result (MadeFew (T.means turns.old) (T.means turns.new) 0) }
    ensures err_few { OnErr result (MadeFew (T.means turns.old) (T.means turns.new) 1) }
    ensures left { OnOk result ((T.means turns.old).turns < (T.means turns.new).turns) }

    // Nothing is waited for.
    ensures most { (T.means turns.new).turns ≤ (T.means turns.old).turns + 7 }
    ensures told { OnOk result (told_by (T.means turns.old) ≤ told_by (T.means turns.new)) }

    // A turn of this call shows the result.
    ensures made { (history : History) → T.saw turns.old history → IfOk result (λ grown. WasMade
        (kind_of B.number (branch_data B.extents B.entries B.cuts B.table) B.TELLS)
        (T.means turns.old) history (T.means turns.new) (T.saw turns.new) (IsChildEnd parent child grown)) }
    ensures cause { IfErr result (HasGrowCause (kind_of B.number (branch_data B.extents B.entries B.cuts B.table) B.TELLS)
        (T.means turns.old) (T.saw turns.old) (T.means turns.new) (T.saw turns.new)) }
{
    let outcome = split_or_stop(turns, parent, child);
    abandon(turns);
    outcome
}
