//! How a descent ends.
ghost use Rattle.std.specs.Prelude.{◌≡◌, ◌≢◌, ◌<◌, true};
ghost use Rattle.spl_base.specs.declared.TheConstants.{ACTORS};
ghost use Rattle.spl_message.specs.Rule.{Rule};
ghost use Rattle.spl_state.specs.Frame.{IsFramed};
ghost use Rattle.spl_state.specs.Sound.{AreDrafts};
ghost use Rattle.spl_descent.specs.Descents.{end_answer, ended};

use spl_base::ACTORS;
use spl_message::Content;
use spl_state::{Parts, Reply};

/// Ends the actor's descent. Takes no memory.
pub fn end<B: Content>(parts: &mut Parts<B>, actor: u32) -> Reply<B>
    requires { actor < ACTORS }
    ensures answer { result ≡ end_answer parts.old actor }
    ensures done { result ≡ Reply.Done → parts.new ≡ ended parts.old actor }
    ensures refused { result ≢ Reply.Done → parts.new ≡ parts.old }
    ensures counters { parts.new.counters ≡ parts.old.counters }
    ensures framed { (rule : Rule) → (B.TELLS ≡ true → AreDrafts rule parts.old)
        → IsFramed rule B.TELLS parts.old parts.new actor }
{
    match parts.actors.at(actor).descent {
        None => {
            let state = parts.state(actor);
            Reply::Unfit { state }
        }
        Some(descent) => {
            parts.holds.leave(actor, descent.node);
            parts.actors.set_descent(actor, None);
            Reply::Done
        }
    }
}
