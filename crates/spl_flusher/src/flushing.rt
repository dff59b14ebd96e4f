ghost use Rattle.std.specs.Prelude.{◌≡◌, ◌≢◌, ◌+◌, ◌<◌, ◌≤◌, ◌^◌, IfErr, IfOk, OnErr, OnOk};
ghost use Rattle.spl_message.specs.History.{History};
ghost use Rattle.spl_state.specs.View.{branch_data};
ghost use Rattle.spl_desk.specs.Calls.{HasSeen, MadeFew, MayCall};
ghost use Rattle.spl_desk.specs.Holder.{kind_of};
ghost use Rattle.spl_desk.specs.Quiet.{IsQuiet, WasMade};
ghost use Rattle.spl_enter.specs.Turning.{HasTurnCause};
ghost use Rattle.spl_job.specs.Holding.{told_by};
ghost use Rattle.spl_flusher.specs.Flushes.{AfterTry, ShowsFlush, ShowsTry, outcome_of};

use crate::Flushed;
use spl_desk::{CallFault, Turns};
use spl_enter::{check_turns, enter_both};
use spl_job::flushing::{Flushing, flush};
use spl_job::steps::abandon;
use spl_message::Content;

/// Takes the write latches of both nodes and flushes. Returns none if another actor's latch was in the way. It stops if
/// the holder has no steps left to give back the latches.
fn try_flush<B: Content, T: Turns<B>>(
    turns: &mut T,
    parent: u32,
    child: u32,
) -> Result<Option<Flushing>, CallFault>
    requires turns { (T.means turns.old).turns < 2 ^ 41 }
    requires ready { T.ready turns.old }
    requires seen { HasSeen (T.saw turns.old) }
    requires nothing { MayCall (T.means turns.old) }
    requires known { (parent < told_by (T.means turns.old)) × (child < told_by (T.means turns.old)) × (parent ≢ child) }
    ensures quiet { IsQuiet (kind_of B.number (branch_data B.extents B.entries B.cuts B.table) B.TELLS)
        (T.means turns.old) (T.saw turns.old) (T.means turns.new) (T.saw turns.new) }
    ensures few { MadeFew (T.means turns.old) (T.means turns.new) 0 }
    ensures ready { T.ready turns.new }
    ensures left { OnOk result ((T.means turns.old).turns < (T.means turns.new).turns) }
    ensures most { (T.means turns.new).turns ≤ (T.means turns.old).turns + 7 }
    ensures after { AfterTry (T.means turns.new) result }
    ensures told { OnOk result (told_by (T.means turns.new) ≡ told_by (T.means turns.old)) }
    ensures made { (history : History) → T.saw turns.old history → IfOk result (λ tried. WasMade
        (kind_of B.number (branch_data B.extents B.entries B.cuts B.table) B.TELLS)
        (T.means turns.old) history (T.means turns.new) (T.saw turns.new) (ShowsTry parent child tried)) }
    ensures cause { IfErr result (HasTurnCause (T.means turns.new)) }
{
    if !enter_both(turns, parent, child)? {
        return Ok(None);
    }
    check_turns(turns)?;
    let flushing = flush(turns, parent, child);
    check_turns(turns)?;
    Ok(Some(flushing))
}

/// The result of the job for this result of the step.
fn outcome_of(flushing: Flushing) -> Flushed
    ensures { result ≡ outcome_of flushing }
{
    match flushing {
        Flushing::Done => Flushed::Done,
        Flushing::Moved => Flushed::Moved,
        Flushing::NeedsRoom => Flushed::NeedsRoom,
        Flushing::NeedsCompact { branches } => Flushed::NeedsCompact { branches },
    }
}

/// Flushes to the child what is live for it in the parent, if that is possible. However it ends, the actor has nothing
/// afterwards.
pub fn flush_to<B: Content, T: Turns<B>>(
    turns: &mut T,
    parent: u32,
    child: u32,
) -> Result<Flushed, CallFault>
    requires turns { (T.means turns.old).turns < 2 ^ 41 }
    requires ready { T.ready turns.old }
    requires seen { HasSeen (T.saw turns.old) }
    requires nothing { MayCall (T.means turns.old) }
    requires known { (parent < told_by (T.means turns.old)) × (child < told_by (T.means turns.old)) × (parent ≢ child) }
    ensures quiet { IsQuiet (kind_of B.number (branch_data B.extents B.entries B.cuts B.table) B.TELLS)
        (T.means turns.old) (T.saw turns.old) (T.means turns.new) (T.saw turns.new) }
    ensures nothing { MayCall (T.means turns.new) }
    ensures ready { T.ready turns.new }
    ensures ok_few { OnOk result (MadeFew (T.means turns.old) (T.means turns.new) 0) }
    ensures err_few { OnErr result (MadeFew (T.means turns.old) (T.means turns.new) 1) }
    ensures left { OnOk result ((T.means turns.old).turns < (T.means turns.new).turns) }

    // Nothing is waited for.
    ensures most { (T.means turns.new).turns ≤ (T.means turns.old).turns + 8 }
    ensures told { OnOk result (told_by (T.means turns.old) ≤ told_by (T.means turns.new)) }
    ensures made { (history : History) → T.saw turns.old history → IfOk result (λ flushed. WasMade
        (kind_of B.number (branch_data B.extents B.entries B.cuts B.table) B.TELLS)
        (T.means turns.old) history (T.means turns.new) (T.saw turns.new) (ShowsFlush parent child flushed)) }
    ensures cause { IfErr result (HasTurnCause (T.means turns.new)) }
{
    match try_flush(turns, parent, child) {
        Ok(None) => Ok(Flushed::Busy),
        Ok(Some(flushing)) => {
            abandon(turns);
            Ok(outcome_of(flushing))
        }
        Err(fault) => {
            abandon(turns);
            Err(fault)
        }
    }
}
