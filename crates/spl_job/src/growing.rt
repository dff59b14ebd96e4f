//! The steps by which the trunk grows, one function each.
//!
//! The root is raised over a new node, and a node that became too big is split in two. Either makes one more node;
//! there are at most 4,096.
ghost use Rattle.std.specs.Prelude.{◌≡◌, ◌≢◌, ◌<◌, ◌^◌, Ok, Some};
ghost use Rattle.spl_message.specs.History.{History};
ghost use Rattle.spl_holds.specs.declared.grip.Grip.TheVariants as grip;
ghost use Rattle.spl_state.specs.View.{branch_data};
ghost use Rattle.spl_desk.specs.Calls.{HasSeen};
ghost use Rattle.spl_desk.specs.Holder.{IsSameHolder, kind_of};
ghost use Rattle.spl_desk.specs.Quiet.{IsQuiet, WasMade};
ghost use Rattle.spl_job.specs.Growing.{IsRaiseTurn, IsSplitTurn};
ghost use Rattle.spl_job.specs.Holding.{Holding, Holds, IsHolding};
ghost use Rattle.spl_job.specs.Merging.{IsHoldingOn, split_in};

use spl_base::NoMemory;
use spl_core::Step;
use spl_desk::{Turns, take_turn};
use spl_message::{Content, Key};
use spl_state::Reply;

/// The result of raising the root.
#[derive(Clone, Copy, Debug, PartialEq, Eq)]
pub enum Raising {
    /// The root is above a new node, which is what the root was.
    Done,
    /// There are as many nodes as there can be.
    Nodes,
}

/// The result of splitting a node.
#[derive(Clone, Copy, Debug, PartialEq, Eq)]
pub enum Splitting {
    /// The part from the key on is a new node, and the parent leads to both parts.
    Done,
    /// The parent does not lead to the child.
    Moved,
    /// The child can't be split at the key.
    Outside,
    /// The parent has as many pivots as it can have.
    Pivots,
    /// There are as many nodes as there can be.
    Nodes,
}

/// Raises the root, which the actor writes, over a new node.
pub fn raise<B: Content, T: Turns<B>>(turns: &mut T) -> Result<Raising, NoMemory>
    requires turns { (T.means turns.old).turns < 2 ^ 41 }
    requires ready { T.ready turns.old }
    requires seen { HasSeen (T.saw turns.old) }
    requires holds { (holding : Holding) × Holds (T.means turns.old) holding × (holding.grips 0 ≡ grip.Write) }
    ensures same { IsSameHolder (T.means turns.old) (T.means turns.new) 1 }
    ensures ready { T.ready turns.new }
    ensures quiet { IsQuiet (kind_of B.number (branch_data B.extents B.entries B.cuts B.table) B.TELLS)
        (T.means turns.old) (T.saw turns.old) (T.means turns.new) (T.saw turns.new) }
    ensures holds { (holding : Holding) → Holds (T.means turns.old) holding
        → IsHoldingOn (T.means turns.new) holding }
    ensures made { (history : History) → T.saw turns.old history → WasMade
        (kind_of B.number (branch_data B.extents B.entries B.cuts B.table) B.TELLS)
        (T.means turns.old) history (T.means turns.new) (T.saw turns.new) (IsRaiseTurn (T.means turns.old) result) }
{
    let _ = turns.actor();
    match take_turn(turns, Step::Raise) {
        Reply::Done => Ok(Raising::Done),
        Reply::Nodes { .. } => Ok(Raising::Nodes),
        Reply::NoMemory => Err(NoMemory),
        _ => unreachable!(),
    }
}

/// Splits the child in two at the key. The actor writes it and its parent.
pub fn split<B: Content, T: Turns<B>>(
    turns: &mut T,
    parent: u32,
    child: u32,
    key: Key,
) -> Result<Splitting, NoMemory>
    requires turns { (T.means turns.old).turns < 2 ^ 41 }
    requires ready { T.ready turns.old }
    requires seen { HasSeen (T.saw turns.old) }
    requires holds { (holding : Holding) × Holds (T.means turns.old) holding
        × (holding.grips parent ≡ grip.Write) × (holding.grips child ≡ grip.Write) }
    ensures same { IsSameHolder (T.means turns.old) (T.means turns.new) 1 }
    ensures ready { T.ready turns.new }
    ensures quiet { IsQuiet (kind_of B.number (branch_data B.extents B.entries B.cuts B.table) B.TELLS)
        (T.means turns.old) (T.saw turns.old) (T.means turns.new) (T.saw turns.new) }
    ensures holds { (holding : Holding) → Holds (T.means turns.old) holding
        → IsHolding (T.means turns.new) holding }
    ensures made { (history : History) → T.saw turns.old history → WasMade
        (kind_of B.number (branch_data B.extents B.entries B.cuts B.table) B.TELLS)
        (T.means turns.old) history (T.means turns.new) (T.saw turns.new)
        (IsSplitTurn (T.means turns.old) parent child key result) }

    // The child can be split at the key at which it is to be split.
    ensures inside { split_in (T.means turns.old).at child ≡ Some key → result ≢ Ok Splitting.Outside }
{
    let _ = turns.actor();
    match take_turn(turns, Step::Split { parent, child, key }) {
        Reply::Done => Ok(Splitting::Done),
        Reply::Moved { .. } => Ok(Splitting::Moved),
        Reply::Outside => Ok(Splitting::Outside),
        Reply::Pivots { .. } => Ok(Splitting::Pivots),
        Reply::Nodes { .. } => Ok(Splitting::Nodes),
        Reply::NoMemory => Err(NoMemory),
        _ => unreachable!(),
    }
}
