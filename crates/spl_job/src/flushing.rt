//! The step that flushes bundles to a child.
ghost use Rattle.std.specs.Prelude.{◌≡◌, ◌<◌, ◌^◌};
ghost use Rattle.spl_message.specs.History.{History};
ghost use Rattle.spl_holds.specs.declared.grip.Grip.TheVariants as grip;
ghost use Rattle.spl_state.specs.View.{branch_data};
ghost use Rattle.spl_desk.specs.Calls.{HasSeen};
ghost use Rattle.spl_desk.specs.Holder.{IsSameHolder, kind_of};
ghost use Rattle.spl_desk.specs.Quiet.{IsQuiet, WasMade};
ghost use Rattle.spl_job.specs.Flushing.{IsFlushTurn};
ghost use Rattle.spl_job.specs.Holding.{Holding, IsHolding};

use spl_core::Step;
use spl_desk::{Turns, take_turn};
use spl_message::Content;
use spl_state::Reply;

/// The result of a flush.
#[derive(Clone, Copy, Debug, PartialEq, Eq)]
pub enum Flushing {
    /// What was live for the child in the parent is the child's newest bundle.
    Done,
    /// The parent does not lead to the child.
    Moved,
    /// The child has as many bundles as it can have.
    NeedsRoom,
    /// The bundle would have so many branches, more than one can have.
    NeedsCompact { branches: u32 },
}

/// Flushes to the child what is live for it in the parent. The actor writes both nodes, also afterwards.
pub fn flush<B: Content, T: Turns<B>>(turns: &mut T, parent: u32, child: u32) -> Flushing
    requires turns { (T.means turns.old).turns < 2 ^ 41 }
    requires ready { T.ready turns.old }
    requires seen { HasSeen (T.saw turns.old) }
    requires holds { (holding : Holding) × IsHolding (T.means turns.old) holding
        × (holding.grips parent ≡ grip.Write) × (holding.grips child ≡ grip.Write) }
    ensures same { IsSameHolder (T.means turns.old) (T.means turns.new) 1 }
    ensures ready { T.ready turns.new }
    ensures quiet { IsQuiet (kind_of B.number (branch_data B.extents B.entries B.cuts B.table) B.TELLS)
        (T.means turns.old) (T.saw turns.old) (T.means turns.new) (T.saw turns.new) }
    ensures holds { (holding : Holding) → IsHolding (T.means turns.old) holding
        → IsHolding (T.means turns.new) holding }
    ensures made { (history : History) → T.saw turns.old history → WasMade
        (kind_of B.number (branch_data B.extents B.entries B.cuts B.table) B.TELLS)
        (T.means turns.old) history (T.means turns.new) (T.saw turns.new) (IsFlushTurn parent child result) }
{
    let _ = turns.actor();
    match take_turn(turns, Step::Flush { parent, child }) {
        Reply::Done => Flushing::Done,
        Reply::Moved { .. } => Flushing::Moved,
        Reply::NeedsRoom => Flushing::NeedsRoom,
        Reply::NeedsCompact { branches } => Flushing::NeedsCompact { branches },
        _ => unreachable!(),
    }
}
