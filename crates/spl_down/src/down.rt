//! The steps of a descent: each is retried while it is refused.
ghost use Rattle.std.specs.Prelude.{◌≡◌, ◌<◌, ◌≤◌, ◌^◌, [], ◌∷◌, false, IfOk, IfErr, OnOk, IsOk, MatchResult};
ghost use Rattle.spl_message.specs.History.{History};
ghost use Rattle.spl_state.specs.View.{branch_data};
ghost use Rattle.spl_desk.specs.Calls.{HasSeen, IsSameCaller, MadeFew, MayCall};
ghost use Rattle.spl_desk.specs.Holder.{IsSameHolder, kind_of};
ghost use Rattle.spl_down.specs.Arrivals.{CameTo, IsAnswer, OnTry, arrival_in};
ghost use Rattle.spl_down.specs.Descending.{Began, Descended, HasEntered, HasTurnCause, IsAt, MaySee, Waits};

use spl_base::NoMemory;
use spl_core::Step;
use spl_desk::{CallFault, Turns, take_turn};
use spl_message::{Content, Span};
use spl_state::{Reply, Sight};

/// A holder that made so many steps is spent.
const MOST_TURNS: u64 = 1 << 40;

const _: () = prove!(MOST_TURNS == 1_099_511_627_776);

/// The sight that a step of a descent was answered, or none if the step has to be retried.
fn seen_in<B: Content>(reply: Reply<B>) -> Result<Option<Sight<B>>, NoMemory>
    requires { MaySee reply }
    ensures { IsAnswer reply result }
{
    match reply {
        Reply::Sight(sight) => Ok(Some(sight)),
        Reply::Again { .. } => Ok(None),
        Reply::NoMemory => Err(NoMemory),
        _ => unreachable!(),
    }
}

/// Begins a descent over the span, if nobody writes the root.
fn begin_once<B: Content, T: Turns<B>>(
    turns: &mut T,
    span: &Span,
) -> Result<Option<Sight<B>>, NoMemory>
    requires turns { (T.means turns.old).turns < 2 ^ 41 }
    requires ready { T.ready turns.old }
    requires seen { HasSeen (T.saw turns.old) }
    requires free { MayCall (T.means turns.old) }
    ensures same { IsSameHolder (T.means turns.old) (T.means turns.new) 1 }
    ensures ready { T.ready turns.new }
    ensures seen { HasSeen (T.saw turns.new) }
    ensures entered { OnTry result (HasEntered (kind_of B.number (branch_data B.extents B.entries B.cuts B.table) B.TELLS)
        (T.means turns.new) span.now) (MayCall (T.means turns.new)) (MayCall (T.means turns.new)) }
    ensures walk { (history : History) → T.saw turns.old history → OnTry result
        (Began (kind_of B.number (branch_data B.extents B.entries B.cuts B.table) B.TELLS)
        (T.means turns.old) history (T.means turns.new) (T.saw turns.new) span.now)
        (CameTo (kind_of B.number (branch_data B.extents B.entries B.cuts B.table) B.TELLS)
        (T.means turns.old) history (T.means turns.new) (T.saw turns.new) 0 [])
        (CameTo (kind_of B.number (branch_data B.extents B.entries B.cuts B.table) B.TELLS)
        (T.means turns.old) history (T.means turns.new) (T.saw turns.new) 1 []) }
{
    let _ = turns.actor();
    seen_in(take_turn(turns, Step::Begin { span: *span }))
}

/// Begins a descent over the span. If it returns a sight it has a place, and has made no other call.
pub fn begin<B: Content, T: Turns<B>>(turns: &mut T, span: &Span) -> Result<Sight<B>, CallFault>
    requires turns { (T.means turns.old).turns < 2 ^ 41 }
    requires ready { T.ready turns.old }
    requires seen { HasSeen (T.saw turns.old) }
    requires free { MayCall (T.means turns.old) }
    ensures same { IsSameCaller (T.means turns.old) (T.means turns.new) }
    ensures few { MadeFew (T.means turns.old) (T.means turns.new) 0 }
    ensures ready { T.ready turns.new }
    ensures seen { HasSeen (T.saw turns.new) }
    ensures entered { IfOk result (HasEntered (kind_of B.number (branch_data B.extents B.entries B.cuts B.table) B.TELLS)
        (T.means turns.new) span.now) }
    ensures left { IsOk result → ((T.means turns.old).turns < (T.means turns.new).turns) × ((T.means turns.new).turns ≤ 2 ^ 40) }
    ensures walk { (history : History) → T.saw turns.old history → MatchResult result
        (Began (kind_of B.number (branch_data B.extents B.entries B.cuts B.table) B.TELLS)
        (T.means turns.old) history (T.means turns.new) (T.saw turns.new) span.now)
        (λ fault. CameTo (kind_of B.number (branch_data B.extents B.entries B.cuts B.table) B.TELLS)
        (T.means turns.old) history (T.means turns.new) (T.saw turns.new) 1 []) }
    ensures cause { IfErr result (HasTurnCause (T.means turns.new)) }
{
    while turns.turns() < MOST_TURNS {
        if let Some(sight) = begin_once(turns, span)? {
            return Ok(sight);
        }
    }
    Err(CallFault::Spent {
        turns: turns.turns(),
    })
}

/// Goes on to the child, if nobody writes it.
fn descend_once<B: Content, T: Turns<B>>(
    turns: &mut T,
    sight: &Sight<B>,
) -> Result<Option<Sight<B>>, NoMemory>
    requires turns { (T.means turns.old).turns < 2 ^ 41 }
    requires ready { T.ready turns.old }
    requires seen { HasSeen (T.saw turns.old) }
    requires at { IsAt (kind_of B.number (branch_data B.extents B.entries B.cuts B.table) B.TELLS) (T.means turns.old) sight.now }
    requires inner { sight.now.leaf ≡ false }
    ensures same { IsSameHolder (T.means turns.old) (T.means turns.new) 1 }
    ensures ready { T.ready turns.new }
    ensures seen { HasSeen (T.saw turns.new) }
    ensures moved { OnTry result (Descended (kind_of B.number (branch_data B.extents B.entries B.cuts B.table) B.TELLS)
        (T.means turns.old) (T.means turns.new) sight.now)
        (Waits (kind_of B.number (branch_data B.extents B.entries B.cuts B.table) B.TELLS)
        (T.means turns.old) (T.means turns.new) sight.now)
        (Waits (kind_of B.number (branch_data B.extents B.entries B.cuts B.table) B.TELLS)
        (T.means turns.old) (T.means turns.new) sight.now) }
    ensures walk { (history : History) → T.saw turns.old history → OnTry result
        (λ next. CameTo (kind_of B.number (branch_data B.extents B.entries B.cuts B.table) B.TELLS)
        (T.means turns.old) history (T.means turns.new) (T.saw turns.new) 1 (arrival_in (T.means turns.new).at next ∷ []))
        (CameTo (kind_of B.number (branch_data B.extents B.entries B.cuts B.table) B.TELLS)
        (T.means turns.old) history (T.means turns.new) (T.saw turns.new) 0 [])
        (CameTo (kind_of B.number (branch_data B.extents B.entries B.cuts B.table) B.TELLS)
        (T.means turns.old) history (T.means turns.new) (T.saw turns.new) 1 []) }
{
    let _ = turns.actor();
    seen_in(take_turn(turns, Step::MoveDown))
}

/// Goes on from the node of the sight to the child that has the start of its span.
pub fn descend<B: Content, T: Turns<B>>(
    turns: &mut T,
    sight: &Sight<B>,
) -> Result<Sight<B>, CallFault>
    requires turns { (T.means turns.old).turns < 2 ^ 41 }
    requires ready { T.ready turns.old }
    requires seen { HasSeen (T.saw turns.old) }
    requires at { IsAt (kind_of B.number (branch_data B.extents B.entries B.cuts B.table) B.TELLS) (T.means turns.old) sight.now }
    requires inner { sight.now.leaf ≡ false }
    ensures same { IsSameCaller (T.means turns.old) (T.means turns.new) }
    ensures few { MadeFew (T.means turns.old) (T.means turns.new) 0 }
    ensures ready { T.ready turns.new }
    ensures seen { HasSeen (T.saw turns.new) }
    ensures moved { IfOk result (Descended (kind_of B.number (branch_data B.extents B.entries B.cuts B.table) B.TELLS)
        (T.means turns.old) (T.means turns.new) sight.now) }
    ensures left { IsOk result → ((T.means turns.old).turns < (T.means turns.new).turns) × ((T.means turns.new).turns ≤ 2 ^ 40) }
    ensures walk { (history : History) → T.saw turns.old history → MatchResult result
        (λ next. CameTo (kind_of B.number (branch_data B.extents B.entries B.cuts B.table) B.TELLS)
        (T.means turns.old) history (T.means turns.new) (T.saw turns.new) 1 (arrival_in (T.means turns.new).at next ∷ []))
        (λ fault. CameTo (kind_of B.number (branch_data B.extents B.entries B.cuts B.table) B.TELLS)
        (T.means turns.old) history (T.means turns.new) (T.saw turns.new) 1 []) }
    ensures cause { IfErr result (HasTurnCause (T.means turns.new)) }
{
    while turns.turns() < MOST_TURNS {
        if let Some(next) = descend_once(turns, sight)? {
            return Ok(next);
        }
    }
    Err(CallFault::Spent {
        turns: turns.turns(),
    })
}

/// Ends the descent. If that succeeds, its actor has nothing again.
pub fn end<B: Content, T: Turns<B>>(turns: &mut T, sight: &Sight<B>) -> Result<(), CallFault>
    requires turns { (T.means turns.old).turns < 2 ^ 41 }
    requires ready { T.ready turns.old }
    requires seen { HasSeen (T.saw turns.old) }
    requires at { IsAt (kind_of B.number (branch_data B.extents B.entries B.cuts B.table) B.TELLS) (T.means turns.old) sight.now }
    ensures same { IsSameCaller (T.means turns.old) (T.means turns.new) }
    ensures few { MadeFew (T.means turns.old) (T.means turns.new) 0 }
    ensures ready { T.ready turns.new }
    ensures seen { HasSeen (T.saw turns.new) }
    ensures ended { OnOk result (MayCall (T.means turns.new)) }
    ensures walk { (history : History) → T.saw turns.old history
        → CameTo (kind_of B.number (branch_data B.extents B.entries B.cuts B.table) B.TELLS)
        (T.means turns.old) history (T.means turns.new) (T.saw turns.new) 1 [] }
    ensures cause { IfErr result (HasTurnCause (T.means turns.new)) }
{
    if turns.turns() >= MOST_TURNS {
        return Err(CallFault::Spent {
            turns: turns.turns(),
        });
    }
    let _ = turns.actor();
    match take_turn(turns, Step::End) {
        Reply::Done => Ok(()),
        _ => unreachable!(),
    }
}
