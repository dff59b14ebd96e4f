//! The steps of a job that every actor makes, one function each.
ghost use Rattle.std.specs.Prelude.{◌≡◌, ◌<◌, ◌^◌, ℕ, true, Ok, None, Some, IsNone};
ghost use Rattle.spl_message.specs.History.{History};
ghost use Rattle.spl_holds.specs.declared.grip.Grip.TheVariants as grip;
ghost use Rattle.spl_holds.specs.Grip.{may_write};
ghost use Rattle.spl_state.specs.declared.job.Job.TheVariants.{Pack};
ghost use Rattle.spl_state.specs.declared.reply.Reply.TheVariants.{NoExtent, Nothing};
ghost use Rattle.spl_state.specs.Actor.{actor_in};
ghost use Rattle.spl_state.specs.View.{branch_data};
ghost use Rattle.spl_desk.specs.Calls.{HasSeen, MayCall};
ghost use Rattle.spl_desk.specs.Causes.{WasAnswered};
ghost use Rattle.spl_desk.specs.Holder.{IsSameHolder, kind_of};
ghost use Rattle.spl_desk.specs.Quiet.{IsQuiet, WasMade};
ghost use Rattle.spl_job.specs.After.{AfterHanging, AfterPick, IsHangTurn};
ghost use Rattle.spl_job.specs.Holding.{Builds, Holding, Holds, IsBranchOf, IsHolding, after_grant, after_latch, after_publish};
ghost use Rattle.spl_job.specs.Latching.{IsClaimTurn, IsLockTurn};

use spl_base::NoMemory;
use spl_core::Step;
use spl_desk::{Turns, take_turn};
use spl_memtable::Slice;
use spl_message::Content;
use spl_state::Reply;
use std::sync::Arc;

/// The result of hanging a branch at the root.
#[derive(Clone, Copy, Debug, PartialEq, Eq)]
pub enum Hanging {
    /// The branch is the newest bundle of the root.
    Done,
    /// An older frozen memtable comes first. With the actor that picked it, if any.
    NotOldest { by: Option<u32> },
    /// The root has as many bundles as it can have.
    NeedsFlush,
}

/// A memtable that is to be packed into the branch with this number.
#[derive(Drop)]
pub struct Picked {
    pub number: u64,
    pub table: Slice,
}

/// Picks the oldest frozen memtable that nobody picked, if there is one.
pub fn pick<B: Content, T: Turns<B>>(turns: &mut T) -> Result<Option<Picked>, NoMemory>
    requires turns { (T.means turns.old).turns < 2 ^ 41 }
    requires ready { T.ready turns.old }
    requires seen { HasSeen (T.saw turns.old) }
    requires nothing { MayCall (T.means turns.old) }
    ensures same { IsSameHolder (T.means turns.old) (T.means turns.new) 1 }
    ensures ready { T.ready turns.new }
    ensures quiet { IsQuiet (kind_of B.number (branch_data B.extents B.entries B.cuts B.table) B.TELLS)
        (T.means turns.old) (T.saw turns.old) (T.means turns.new) (T.saw turns.new) }
    ensures picked { AfterPick (T.means turns.new) result }
    ensures nothing { result ≡ Ok None → (history : History) → T.saw turns.old history
        → WasAnswered (kind_of B.number (branch_data B.extents B.entries B.cuts B.table) B.TELLS)
        (T.means turns.old) history (T.means turns.new) (T.saw turns.new) (λ answer. answer ≡ Nothing) }
{
    let _ = turns.actor();
    match take_turn(turns, Step::PickFrozen) {
        Reply::Picked { number, table } => Ok(Some(Picked { number, table })),
        Reply::Nothing => Ok(None),
        Reply::NoMemory => Err(NoMemory),
        _ => unreachable!(),
    }
}

/// Grants a free extent, if there is one.
pub fn grant<B: Content, T: Turns<B>>(turns: &mut T) -> Option<u32>
    requires turns { (T.means turns.old).turns < 2 ^ 41 }
    requires ready { T.ready turns.old }
    requires seen { HasSeen (T.saw turns.old) }
    requires holds { (holding : Holding) × IsHolding (T.means turns.old) holding × Builds holding }
    ensures same { IsSameHolder (T.means turns.old) (T.means turns.new) 1 }
    ensures ready { T.ready turns.new }
    ensures quiet { IsQuiet (kind_of B.number (branch_data B.extents B.entries B.cuts B.table) B.TELLS)
        (T.means turns.old) (T.saw turns.old) (T.means turns.new) (T.saw turns.new) }
    ensures holds { (holding : Holding) → IsHolding (T.means turns.old) holding
        → IsHolding (T.means turns.new) (after_grant holding result) }
    ensures none { IsNone result → (history : History) → T.saw turns.old history
        → WasAnswered (kind_of B.number (branch_data B.extents B.entries B.cuts B.table) B.TELLS)
        (T.means turns.old) history (T.means turns.new) (T.saw turns.new) (λ answer. answer ≡ NoExtent) }
{
    let _ = turns.actor();
    match take_turn(turns, Step::Grant) {
        Reply::Granted { extent } => Some(extent),
        Reply::NoExtent => None,
        _ => unreachable!(),
    }
}

/// Publishes the branch, which holds the granted extents from then on.
pub fn publish<B: Content, T: Turns<B>>(turns: &mut T, branch: Arc<B>) -> Result<(), NoMemory>
    requires turns { (T.means turns.old).turns < 2 ^ 41 }
    requires ready { T.ready turns.old }
    requires seen { HasSeen (T.saw turns.old) }
    requires holds { (holding : Holding) × IsHolding (T.means turns.old) holding
        × IsBranchOf (T.means turns.old).rule holding B.TELLS
        (B.number branch.value) (B.extents branch.value) (B.table branch.value) }
    ensures same { IsSameHolder (T.means turns.old) (T.means turns.new) 1 }
    ensures ready { T.ready turns.new }
    ensures quiet { IsQuiet (kind_of B.number (branch_data B.extents B.entries B.cuts B.table) B.TELLS)
        (T.means turns.old) (T.saw turns.old) (T.means turns.new) (T.saw turns.new) }
    ensures holds { (holding : Holding) → IsHolding (T.means turns.old) holding
        → IsHolding (T.means turns.new) (after_publish holding result) }
{
    let _ = turns.actor();
    match take_turn(turns, Step::Publish { branch }) {
        Reply::Done => Ok(()),
        Reply::NoMemory => Err(NoMemory),
        _ => unreachable!(),
    }
}

/// Takes a claim on the node, unless another actor has one or writes the node.
pub fn claim<B: Content, T: Turns<B>>(turns: &mut T, node: u32) -> bool
    requires turns { (T.means turns.old).turns < 2 ^ 41 }
    requires ready { T.ready turns.old }
    requires seen { HasSeen (T.saw turns.old) }
    requires holds { (holding : Holding) × Holds (T.means turns.old) holding
        × (holding.grips node ≡ grip.Free) × (node < holding.told) }
    ensures same { IsSameHolder (T.means turns.old) (T.means turns.new) 1 }
    ensures ready { T.ready turns.new }
    ensures quiet { IsQuiet (kind_of B.number (branch_data B.extents B.entries B.cuts B.table) B.TELLS)
        (T.means turns.old) (T.saw turns.old) (T.means turns.new) (T.saw turns.new) }
    ensures holds { (holding : Holding) → Holds (T.means turns.old) holding
        → IsHolding (T.means turns.new) (after_latch holding node result grip.Claim) }
    ensures made { (history : History) → T.saw turns.old history → WasMade
        (kind_of B.number (branch_data B.extents B.entries B.cuts B.table) B.TELLS)
        (T.means turns.old) history (T.means turns.new) (T.saw turns.new) (IsClaimTurn node result) }
{
    let _ = turns.actor();
    match take_turn(turns, Step::Claim { node }) {
        Reply::Done => true,
        Reply::Again { .. } => false,
        _ => unreachable!(),
    }
}

/// Makes the claim on the node a write, if nobody reads the node.
pub fn lock<B: Content, T: Turns<B>>(turns: &mut T, node: u32) -> bool
    requires turns { (T.means turns.old).turns < 2 ^ 41 }
    requires ready { T.ready turns.old }
    requires seen { HasSeen (T.saw turns.old) }
    requires holds { (holding : Holding) × IsHolding (T.means turns.old) holding
        × (holding.grips node ≡ grip.Claim) }
    ensures same { IsSameHolder (T.means turns.old) (T.means turns.new) 1 }
    ensures ready { T.ready turns.new }
    ensures quiet { IsQuiet (kind_of B.number (branch_data B.extents B.entries B.cuts B.table) B.TELLS)
        (T.means turns.old) (T.saw turns.old) (T.means turns.new) (T.saw turns.new) }
    ensures holds { (holding : Holding) → IsHolding (T.means turns.old) holding
        → IsHolding (T.means turns.new) (after_latch holding node result grip.Write) }
    ensures made { (history : History) → T.saw turns.old history → WasMade
        (kind_of B.number (branch_data B.extents B.entries B.cuts B.table) B.TELLS)
        (T.means turns.old) history (T.means turns.new) (T.saw turns.new) (IsLockTurn node result) }
{
    let _ = turns.actor();
    match take_turn(turns, Step::Lock { node }) {
        Reply::Done => true,
        Reply::Again { .. } => false,
        _ => unreachable!(),
    }
}

/// Ends the claim or write on the node.
pub fn unlock<B: Content, T: Turns<B>>(turns: &mut T, node: u32)
    requires turns { (T.means turns.old).turns < 2 ^ 41 }
    requires ready { T.ready turns.old }
    requires seen { HasSeen (T.saw turns.old) }
    requires holds { (holding : Holding) × IsHolding (T.means turns.old) holding
        × (may_write (holding.grips node) ≡ true) }
    ensures same { IsSameHolder (T.means turns.old) (T.means turns.new) 1 }
    ensures ready { T.ready turns.new }
    ensures quiet { IsQuiet (kind_of B.number (branch_data B.extents B.entries B.cuts B.table) B.TELLS)
        (T.means turns.old) (T.saw turns.old) (T.means turns.new) (T.saw turns.new) }
    ensures holds { (holding : Holding) → IsHolding (T.means turns.old) holding
        → IsHolding (T.means turns.new) (after_latch holding node true grip.Free) }
{
    let _ = turns.actor();
    match take_turn(turns, Step::Unlock { node }) {
        Reply::Done => {}
        _ => unreachable!(),
    }
}

/// Hangs the published branch at the root, where it replaces its memtable, if that is the oldest and there is room.
pub fn incorporate<B: Content, T: Turns<B>>(turns: &mut T) -> Hanging
    requires turns { (T.means turns.old).turns < 2 ^ 41 }
    requires ready { T.ready turns.old }
    requires seen { HasSeen (T.saw turns.old) }
    requires holds { (holding : Holding) × (number memtable : ℕ) × IsHolding (T.means turns.old) holding
        × (holding.job ≡ Some (Pack number memtable)) × (holding.published ≡ true) × (holding.grips 0 ≡ grip.Write) }
    ensures same { IsSameHolder (T.means turns.old) (T.means turns.new) 1 }
    ensures ready { T.ready turns.new }
    ensures quiet { IsQuiet (kind_of B.number (branch_data B.extents B.entries B.cuts B.table) B.TELLS)
        (T.means turns.old) (T.saw turns.old) (T.means turns.new) (T.saw turns.new) }
    ensures holds { (holding : Holding) → IsHolding (T.means turns.old) holding → holding.published ≡ true
        → AfterHanging (T.means turns.new) holding result }
    ensures made { (history : History) → T.saw turns.old history → WasMade
        (kind_of B.number (branch_data B.extents B.entries B.cuts B.table) B.TELLS)
        (T.means turns.old) history (T.means turns.new) (T.saw turns.new) (IsHangTurn result) }
{
    let _ = turns.actor();
    match take_turn(turns, Step::Incorporate) {
        Reply::Done => Hanging::Done,
        Reply::NotOldest { by, .. } => Hanging::NotOldest { by },
        Reply::NeedsFlush => Hanging::NeedsFlush,
        _ => unreachable!(),
    }
}

/// Gives back all that the actor has.
pub fn abandon<B: Content, T: Turns<B>>(turns: &mut T)
    requires turns { (T.means turns.old).turns < 2 ^ 41 }
    requires ready { T.ready turns.old }
    requires seen { HasSeen (T.saw turns.old) }
    ensures same { IsSameHolder (T.means turns.old) (T.means turns.new) 1 }
    ensures ready { T.ready turns.new }
    ensures quiet { IsQuiet (kind_of B.number (branch_data B.extents B.entries B.cuts B.table) B.TELLS)
        (T.means turns.old) (T.saw turns.old) (T.means turns.new) (T.saw turns.new) }
    ensures nothing { MayCall (T.means turns.new) }
    ensures told { (actor_in (T.means turns.new).at.actors (T.means turns.new).actor).told
        ≡ (actor_in (T.means turns.old).at.actors (T.means turns.old).actor).told }
{
    let _ = take_turn(turns, Step::Abandon);
}
