ghost use Rattle.std.specs.Prelude.{◌≡◌, ◌<◌, ◌≤◌, ◌^◌, Ok, IfErr, IfOk, OnOk};
ghost use Rattle.spl_message.specs.History.{History};
ghost use Rattle.spl_state.specs.View.{branch_data};
ghost use Rattle.spl_desk.specs.Calls.{HasSeen, MadeFew, MayCall};
ghost use Rattle.spl_desk.specs.Holder.{kind_of};
ghost use Rattle.spl_desk.specs.Quiet.{IsQuiet, WasMade};
ghost use Rattle.spl_enter.specs.Turning.{HasTurnCause};
ghost use Rattle.spl_job.specs.Holding.{told_by};
ghost use Rattle.spl_job.specs.Merging.{IsSurveyTurn, NamesChildren};
ghost use Rattle.spl_worker.specs.Plans.{IsNamed};

use spl_desk::{CallFault, Turns};
use spl_enter::check_turns;
use spl_job::merging::survey;
use spl_message::Content;
use spl_state::View;

/// Surveys a node, for an actor that has nothing.
pub(crate) fn look<B: Content, T: Turns<B>>(turns: &mut T, node: u32) -> Result<View, CallFault>
    requires turns { (T.means turns.old).turns < 2 ^ 41 }
    requires ready { T.ready turns.old }
    requires seen { HasSeen (T.saw turns.old) }
    requires nothing { MayCall (T.means turns.old) }
    requires known { IsNamed (T.means turns.old) node }
    ensures quiet { IsQuiet (kind_of B.number (branch_data B.extents B.entries B.cuts B.table) B.TELLS)
        (T.means turns.old) (T.saw turns.old) (T.means turns.new) (T.saw turns.new) }
    ensures few { MadeFew (T.means turns.old) (T.means turns.new) 0 }
    ensures ready { T.ready turns.new }
    ensures left { OnOk result ((T.means turns.old).turns < (T.means turns.new).turns) }
    ensures nothing { MayCall (T.means turns.new) }
    ensures told { OnOk result (node < told_by (T.means turns.new)) }
    ensures more { OnOk result (told_by (T.means turns.old) ≤ told_by (T.means turns.new)) }
    ensures children { IfOk result (NamesChildren (T.means turns.new) node) }
    ensures shown { (history : History) → T.saw turns.old history → IfOk result (λ view. WasMade
        (kind_of B.number (branch_data B.extents B.entries B.cuts B.table) B.TELLS)
        (T.means turns.old) history (T.means turns.new) (T.saw turns.new) (IsSurveyTurn node (Ok view))) }
    ensures cause { IfErr result (HasTurnCause (T.means turns.new)) }
{
    check_turns(turns)?;
    let _ = turns.actor();
    Ok(survey(turns, node)?)
}
