ghost use Rattle.std.specs.Prelude.{◌<◌, ◌^◌, IfErr, OnOk};
ghost use Rattle.spl_enter.specs.Turning.{HasTurnCause};

use spl_desk::{CallFault, Turns};
use spl_message::Content;

/// A holder that made so many steps is spent.
const MOST_TURNS: u64 = 1 << 40;

const _: () = prove!(MOST_TURNS == 1_099_511_627_776);

/// Stops a holder that has made as many steps as it may.
pub fn check_turns<B: Content, T: Turns<B>>(turns: &T) -> Result<(), CallFault>
    ensures ok { OnOk result ((T.means turns.now).turns < 2 ^ 40) }
    ensures err { IfErr result (HasTurnCause (T.means turns.now)) }
{
    let turns = turns.turns();
    if turns < MOST_TURNS {
        Ok(())
    } else {
        Err(CallFault::Spent { turns })
    }
}
