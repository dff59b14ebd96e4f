//! How what was merged comes to the place of its run.
ghost use Rattle.std.specs.Prelude.{◌≡◌, ℕ, ◌+◌, ◌<◌, ◌≤◌, ◌^◌, true, IfErr, IfOk, IfSome, OnOk};
ghost use Rattle.spl_holds.specs.declared.grip.Grip.TheVariants as grip;
ghost use Rattle.spl_holds.specs.Grip.{may_write};
ghost use Rattle.spl_state.specs.View.{branch_data};
ghost use Rattle.spl_desk.specs.Calls.{HasSeen, MadeFew};
ghost use Rattle.spl_desk.specs.Holder.{kind_of};
ghost use Rattle.spl_desk.specs.Quiet.{IsQuiet};
ghost use Rattle.spl_job.specs.Holding.{Holding, IsHolding, with_grip};
ghost use Rattle.spl_enter.specs.Turning.{HasTurnCause};
ghost use Rattle.spl_compactor.specs.Compacting.{AfterPlace, AfterWork, IsToPlace, no_grip, write_on};
ghost use Rattle.spl_compactor.specs.Outcomes.{WasEnded, ends};

use crate::Compacted;
use spl_desk::{CallFault, Turns};
use spl_enter::{check_turns, enter};
use spl_job::merging::{Installed, install};
use spl_job::steps::unlock;
use spl_message::Content;

/// What serving one node comes to.
#[derive(Clone, Copy, Debug, PartialEq, Eq)]
pub enum Placed {
    /// This node is next, or again.
    Next { node: u32 },
    /// All nodes that have the run are served.
    Done,
    /// No node has the run.
    Stale,
}

/// Ends the write on the node.
fn leave<B: Content, T: Turns<B>>(turns: &mut T, node: u32) -> Result<(), CallFault>
    requires turns { (T.means turns.old).turns < 2 ^ 41 }
    requires ready { T.ready turns.old }
    requires seen { HasSeen (T.saw turns.old) }
    requires writes { (holding : Holding) × IsHolding (T.means turns.old) holding
        × (may_write (holding.grips node) ≡ true) }
    ensures quiet { IsQuiet (kind_of B.number (branch_data B.extents B.entries B.cuts B.table) B.TELLS)
        (T.means turns.old) (T.saw turns.old) (T.means turns.new) (T.saw turns.new) }
    ensures few { MadeFew (T.means turns.old) (T.means turns.new) 0 }
    ensures ready { T.ready turns.new }
    ensures leaves { OnOk result ((holding : Holding) → IsHolding (T.means turns.old) holding
        → IsHolding (T.means turns.new) (with_grip holding node grip.Free)) }
    ensures left { OnOk result ((T.means turns.old).turns < (T.means turns.new).turns) }
    ensures most { (T.means turns.new).turns ≤ (T.means turns.old).turns + 1 }
    ensures cause { IfErr result (HasTurnCause (T.means turns.new)) }
{
    check_turns(turns)?;
    unlock(turns, node);
    Ok(())
}

/// Puts what was merged in the place of the run in the node, which the actor writes, and leaves the node.
fn place_in<B: Content, T: Turns<B>>(
    turns: &mut T,
    node: u32,
    output: bool,
) -> Result<Placed, CallFault>
    requires turns { (T.means turns.old).turns < 2 ^ 41 }
    requires ready { T.ready turns.old }
    requires seen { HasSeen (T.saw turns.old) }
    requires to_place { IsToPlace B.TELLS (T.means turns.old) 0 output (write_on node) }
    ensures quiet { IsQuiet (kind_of B.number (branch_data B.extents B.entries B.cuts B.table) B.TELLS)
        (T.means turns.old) (T.saw turns.old) (T.means turns.new) (T.saw turns.new) }
    ensures few { MadeFew (T.means turns.old) (T.means turns.new) 0 }
    ensures ready { T.ready turns.new }
    ensures placed { (least : ℕ) → IsToPlace B.TELLS (T.means turns.old) least output (write_on node)
        → IfOk result (AfterPlace B.TELLS (T.means turns.new) least output) }
    ensures made { IfOk result (λ placed. IfSome (ends placed) (WasEnded
        (kind_of B.number (branch_data B.extents B.entries B.cuts B.table) B.TELLS)
        (T.means turns.old) (T.saw turns.old) (T.means turns.new) (T.saw turns.new))) }
    ensures left { OnOk result ((T.means turns.old).turns < (T.means turns.new).turns) }
    ensures most { (T.means turns.new).turns ≤ (T.means turns.old).turns + 2 }
    ensures cause { IfErr result (HasTurnCause (T.means turns.new)) }
{
    check_turns(turns)?;
    match install(turns, node, output) {
        Installed::Done => {
            leave(turns, node)?;
            Ok(Placed::Done)
        }
        Installed::Next { node: next } => {
            leave(turns, node)?;
            Ok(Placed::Next { node: next })
        }
        Installed::Elsewhere { next: Some(next) } => {
            leave(turns, node)?;
            Ok(Placed::Next { node: next })
        }
        Installed::Elsewhere { next: None } => Ok(Placed::Stale),
    }
}

/// Tries once to put what was merged in the place of the run in the node. Where somebody is in the way, the node is to be
/// tried again.
fn place_once<B: Content, T: Turns<B>>(
    turns: &mut T,
    node: u32,
    output: bool,
) -> Result<Placed, CallFault>
    requires turns { (T.means turns.old).turns < 2 ^ 41 }
    requires ready { T.ready turns.old }
    requires seen { HasSeen (T.saw turns.old) }
    requires to_place { (least : ℕ) × (node < least) × IsToPlace B.TELLS (T.means turns.old) least output no_grip }
    ensures quiet { IsQuiet (kind_of B.number (branch_data B.extents B.entries B.cuts B.table) B.TELLS)
        (T.means turns.old) (T.saw turns.old) (T.means turns.new) (T.saw turns.new) }
    ensures few { MadeFew (T.means turns.old) (T.means turns.new) 0 }
    ensures ready { T.ready turns.new }
    ensures placed { (least : ℕ) → node < least → IsToPlace B.TELLS (T.means turns.old) least output no_grip
        → IfOk result (AfterPlace B.TELLS (T.means turns.new) least output) }
    ensures made { IfOk result (λ placed. IfSome (ends placed) (WasEnded
        (kind_of B.number (branch_data B.extents B.entries B.cuts B.table) B.TELLS)
        (T.means turns.old) (T.saw turns.old) (T.means turns.new) (T.saw turns.new))) }
    ensures left { OnOk result ((T.means turns.old).turns < (T.means turns.new).turns) }
    ensures most { (T.means turns.new).turns ≤ (T.means turns.old).turns + 5 }
    ensures cause { IfErr result (HasTurnCause (T.means turns.new)) }
{
    if enter(turns, node)? {
        place_in(turns, node, output)
    } else {
        Ok(Placed::Next { node })
    }
}

/// Puts what was merged in the place of the run, in each node that has it, from this one on.
pub(crate) fn place<B: Content, T: Turns<B>>(
    turns: &mut T,
    node: u32,
    output: bool,
) -> Result<Compacted, CallFault>
    requires turns { (T.means turns.old).turns < 2 ^ 41 }
    requires ready { T.ready turns.old }
    requires seen { HasSeen (T.saw turns.old) }
    requires to_place { (least : ℕ) × (node < least) × IsToPlace B.TELLS (T.means turns.old) least output no_grip }
    ensures quiet { IsQuiet (kind_of B.number (branch_data B.extents B.entries B.cuts B.table) B.TELLS)
        (T.means turns.old) (T.saw turns.old) (T.means turns.new) (T.saw turns.new) }
    ensures few { MadeFew (T.means turns.old) (T.means turns.new) 0 }
    ensures ready { T.ready turns.new }
    ensures placed { (least : ℕ) → node < least → IsToPlace B.TELLS (T.means turns.old) least output no_grip
        → IfOk result (AfterWork (T.means turns.new) least) }
    ensures made { IfOk result (WasEnded
        (kind_of B.number (branch_data B.extents B.entries B.cuts B.table) B.TELLS)
        (T.means turns.old) (T.saw turns.old) (T.means turns.new) (T.saw turns.new)) }
    ensures left { OnOk result ((T.means turns.old).turns < (T.means turns.new).turns) }
    ensures cause { IfErr result (HasTurnCause (T.means turns.new)) }
{
    let mut at = node;
    loop {
        match place_once(turns, at, output)? {
            Placed::Next { node: next } => at = next,
            Placed::Done => return Ok(Compacted::Done),
            Placed::Stale => return Ok(Compacted::Stale),
        }
    }
}
