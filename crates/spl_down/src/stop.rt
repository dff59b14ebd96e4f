ghost use Rattle.std.specs.Prelude.{◌≡◌, ◌+◌, ◌<◌, ◌^◌, []};
ghost use Rattle.spl_message.specs.History.{History};
ghost use Rattle.spl_state.specs.View.{branch_data};
ghost use Rattle.spl_desk.specs.Calls.{HasCalled, HasSeen, MadeNoCall};
ghost use Rattle.spl_desk.specs.Holder.{kind_of};
ghost use Rattle.spl_down.specs.Arrivals.{CameTo};

use spl_core::Step;
use spl_desk::{CallFault, Turns, take_turn};
use spl_message::Content;
use std::error::Error;
use std::fmt;

/// A call with a descent that was stopped.
#[derive(Clone, Copy, Debug, PartialEq, Eq)]
pub struct Stopped {
    pub fault: CallFault,
    /// The place of its descent, if that had begun.
    pub place: Option<u64>,
}

impl fmt::Display for Stopped {
    fn fmt<W: fmt::Write>(&self, f: &mut fmt::Formatter<W>) -> fmt::Result {
        write!(f, "{}", self.fault)
    }
}

impl Error for Stopped {}

/// Gives back all that the actor has: the last step of a call that is stopped.
pub fn abandon<B: Content, T: Turns<B>>(turns: &mut T)
    requires turns { (T.means turns.old).turns < 2 ^ 41 }
    requires ready { T.ready turns.old }
    requires seen { HasSeen (T.saw turns.old) }
    ensures called { HasCalled (T.means turns.old) (T.means turns.new) }
    ensures turn { (T.means turns.new).turns ≡ (T.means turns.old).turns + 1 }
    ensures ready { T.ready turns.new }
    ensures seen { HasSeen (T.saw turns.new) }
    ensures no_call { (history : History) → T.saw turns.old history → MadeNoCall (kind_of B.number (branch_data B.extents B.entries B.cuts B.table) B.TELLS)
        (T.means turns.old) history (T.means turns.new) (T.saw turns.new) }
    ensures walk { (history : History) → T.saw turns.old history → CameTo (kind_of B.number (branch_data B.extents B.entries B.cuts B.table) B.TELLS)
        (T.means turns.old) history (T.means turns.new) (T.saw turns.new) 1 [] }
{
    let _ = take_turn(turns, Step::Abandon);
}
