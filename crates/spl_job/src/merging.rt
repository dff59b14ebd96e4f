//! The steps of an actor that merges bundles of a node, one function each.
//!
//! A survey shows what there is to merge. The run that `start` gives carries the actor's mark. While the actor
//! writes the new branch the node may be split, so that other nodes hold the run too: `install` serves one of
//! them at a time, and names the next.
ghost use Rattle.std.specs.Prelude.{◌≡◌, ℕ, ◌<◌, ◌^◌, List, [], None, Some, false, true, IfOk};
ghost use Rattle.spl_message.specs.History.{History};
ghost use Rattle.spl_message.specs.Table.{IsMerged, as_table};
ghost use Rattle.spl_bundle.specs.Numbered.{Bundle};
ghost use Rattle.spl_holds.specs.declared.grip.Grip.TheVariants as grip;
ghost use Rattle.spl_state.specs.declared.job.Job.TheVariants.{Merge};
ghost use Rattle.spl_state.specs.declared.job.Run.{Run};
ghost use Rattle.spl_state.specs.declared.reply.Reply.TheVariants as reply;
ghost use Rattle.spl_state.specs.View.{branch_data};
ghost use Rattle.spl_survey.specs.Surveys.{views_from};
ghost use Rattle.spl_desk.specs.Calls.{HasSeen};
ghost use Rattle.spl_desk.specs.Causes.{WasAnswered};
ghost use Rattle.spl_desk.specs.Holder.{IsSameHolder, kind_of};
ghost use Rattle.spl_desk.specs.Quiet.{IsQuiet, WasMade};
ghost use Rattle.spl_job.specs.Holding.{Holding, Holds, IsHolding, IsKnown};
ghost use Rattle.spl_job.specs.Merging.{AfterInstall, AfterStart, HasChildren, IsHoldingOn, IsInstallTurn, IsStartOf, IsStartTurn, IsSurveyTurn, NamesChildren, split_in};

use spl_base::NoMemory;
use spl_core::Step;
use spl_desk::{Turns, take_turn};
use spl_message::Content;
use spl_state::{Reply, Ticket, View};

/// The result of asking for a run of bundles.
#[derive(Drop)]
pub enum Started<B: Content> {
    /// The run is the actor's to merge.
    Ticket(Ticket<B>),
    /// One of the bundles is being merged by this actor.
    Busy { by: u32 },
    /// Not all of the bundles are there.
    Gone,
    /// Some of the bundles are live for a child, and some are not.
    Crossed,
}

/// The result of ending a merge in one node.
#[derive(Clone, Copy, Debug, PartialEq, Eq)]
pub enum Installed {
    /// The node is served, and this one holds the run too.
    Next { node: u32 },
    /// The last node is served, and the job has ended.
    Done,
    /// The node does not hold the run; the lowest-numbered node that does.
    Elsewhere { next: Option<u32> },
}

/// Shows what the node holds.
pub fn survey<B: Content, T: Turns<B>>(turns: &mut T, node: u32) -> Result<View, NoMemory>
    requires turns { (T.means turns.old).turns < 2 ^ 41 }
    requires ready { T.ready turns.old }
    requires seen { HasSeen (T.saw turns.old) }
    requires holds { (holding : Holding) × Holds (T.means turns.old) holding × IsKnown holding node }
    ensures same { IsSameHolder (T.means turns.old) (T.means turns.new) 1 }
    ensures ready { T.ready turns.new }
    ensures quiet { IsQuiet (kind_of B.number (branch_data B.extents B.entries B.cuts B.table) B.TELLS)
        (T.means turns.old) (T.saw turns.old) (T.means turns.new) (T.saw turns.new) }
    ensures holds { (holding : Holding) → Holds (T.means turns.old) holding
        → IsHoldingOn (T.means turns.new) holding }
    ensures shown { (history : History) → T.saw turns.old history → IfOk result (λ view. WasAnswered
        (kind_of B.number (branch_data B.extents B.entries B.cuts B.table) B.TELLS)
        (T.means turns.old) history (T.means turns.new) (T.saw turns.new) (λ answer. answer ≡ reply.View view)) }
    ensures made { (history : History) → T.saw turns.old history → WasMade
        (kind_of B.number (branch_data B.extents B.entries B.cuts B.table) B.TELLS)
        (T.means turns.old) history (T.means turns.new) (T.saw turns.new) (IsSurveyTurn node result) }

    // Each bundle has the number behind that of the one before it.
    ensures numbered { IfOk result (λ view. (first : ℕ) × (list : List Bundle)
        × (view.bundles ≡ views_from first list)) }

    // The actor was told of the children that the view names; only a leaf has none.
    ensures children { IfOk result (NamesChildren (T.means turns.new) node) }
    ensures inner { IfOk result HasChildren }

    // The split key is the one that the node has now.
    ensures split { IfOk result (λ view. view.split ≡ split_in (T.means turns.new).at node) }
{
    let _ = turns.actor();
    match take_turn(turns, Step::Survey { node }) {
        Reply::View(view) => Ok(view),
        Reply::NoMemory => Err(NoMemory),
        _ => unreachable!(),
    }
}

/// Asks for the bundles of the node from `first` up to `last`, to merge them.
pub fn start<B: Content, T: Turns<B>>(
    turns: &mut T,
    node: u32,
    first: u64,
    last: u64,
) -> Result<Started<B>, NoMemory>
    requires turns { (T.means turns.old).turns < 2 ^ 41 }
    requires ready { T.ready turns.old }
    requires seen { HasSeen (T.saw turns.old) }
    requires holds { (holding : Holding) × Holds (T.means turns.old) holding
        × (holding.job ≡ None) × IsKnown holding node }
    ensures same { IsSameHolder (T.means turns.old) (T.means turns.new) 1 }
    ensures ready { T.ready turns.new }
    ensures quiet { IsQuiet (kind_of B.number (branch_data B.extents B.entries B.cuts B.table) B.TELLS)
        (T.means turns.old) (T.saw turns.old) (T.means turns.new) (T.saw turns.new) }
    ensures holds { (holding : Holding) → Holds (T.means turns.old) holding
        → AfterStart B.number B.table (T.means turns.new) holding result }
    ensures asked { IfOk result (IsStartOf node first last) }
    ensures made { (history : History) → T.saw turns.old history → WasMade
        (kind_of B.number (branch_data B.extents B.entries B.cuts B.table) B.TELLS)
        (T.means turns.old) history (T.means turns.new) (T.saw turns.new) (IsStartTurn node first last result) }
{
    let _ = turns.actor();
    match take_turn(turns, Step::Start { node, first, last }) {
        Reply::Ticket(ticket) => Ok(Started::Ticket(ticket)),
        Reply::Busy { by } => Ok(Started::Busy { by }),
        Reply::Gone { .. } => Ok(Started::Gone),
        Reply::Crossed { .. } => Ok(Started::Crossed),
        Reply::NoMemory => Err(NoMemory),
        _ => unreachable!(),
    }
}

/// Replaces the run in the node, which the actor writes, by what was merged. `output` says whether a branch was
/// published; without one nothing is left of what was merged.
pub fn install<B: Content, T: Turns<B>>(turns: &mut T, node: u32, output: bool) -> Installed
    requires turns { (T.means turns.old).turns < 2 ^ 41 }
    requires ready { T.ready turns.old }
    requires seen { HasSeen (T.saw turns.old) }
    requires holds { (holding : Holding) × (number : ℕ) × (run : Run) × IsHolding (T.means turns.old) holding
        × (holding.job ≡ Some (Merge number run)) × (holding.published ≡ output)
        × (holding.grips node ≡ grip.Write)
        × (B.TELLS ≡ true → output ≡ false
        → IsMerged (T.means turns.old).rule holding.tables run.span run.bottom (as_table [])) }
    ensures same { IsSameHolder (T.means turns.old) (T.means turns.new) 1 }
    ensures ready { T.ready turns.new }
    ensures quiet { IsQuiet (kind_of B.number (branch_data B.extents B.entries B.cuts B.table) B.TELLS)
        (T.means turns.old) (T.saw turns.old) (T.means turns.new) (T.saw turns.new) }
    ensures holds { (holding : Holding) (number : ℕ) (run : Run) → IsHolding (T.means turns.old) holding
        → holding.job ≡ Some (Merge number run) → holding.published ≡ output
        → holding.grips node ≡ grip.Write
        → AfterInstall (T.means turns.new) holding result }
    ensures made { (history : History) → T.saw turns.old history → WasMade
        (kind_of B.number (branch_data B.extents B.entries B.cuts B.table) B.TELLS)
        (T.means turns.old) history (T.means turns.new) (T.saw turns.new) (IsInstallTurn node output result) }
{
    let _ = turns.actor();
    match take_turn(turns, Step::Install { node, output }) {
        Reply::Next { node } => Installed::Next { node },
        Reply::Done => Installed::Done,
        Reply::Elsewhere { next } => Installed::Elsewhere { next },
        _ => unreachable!(),
    }
}
