//! How a caller retires.
ghost use Rattle.std.specs.Prelude.{◌≡◌, ℕ, ◌<◌, true};
ghost use Rattle.spl_base.specs.declared.TheConstants.{ACTORS};
ghost use Rattle.spl_message.specs.Rule.{Rule};
ghost use Rattle.spl_state.specs.Frame.{IsFramed};
ghost use Rattle.spl_state.specs.Reply.{state_of};
ghost use Rattle.spl_state.specs.Sound.{AreDrafts};
ghost use Rattle.spl_steps.specs.Retiring.{has_nothing, retire_answer, after_retire};

use spl_base::ACTORS;
use spl_message::Content;
use spl_state::{ActorState, Parts, Reply};

/// Counts one running caller fewer, if one still runs. The actor must have nothing.
pub fn retire<B: Content>(parts: &mut Parts<B>, actor: u32) -> Reply<B>
    requires known { actor < ACTORS }
    ensures answer { result ≡ retire_answer parts.old actor }
    ensures state { parts.new ≡ after_retire parts.old actor }
    ensures steps { parts.new.counters.steps ≡ parts.old.counters.steps }
    ensures places { parts.new.counters.places ≡ parts.old.counters.places }
    ensures framed { (rule : Rule) → (B.TELLS ≡ true → AreDrafts rule parts.old) → IsFramed rule B.TELLS parts.old parts.new actor }
{
    let state = parts.state(actor);
    if !has_nothing(&state) {
        return Reply::Unfit { state };
    }
    let running = parts.counters.running.saturating_sub(1);
    parts.counters.running = running;
    Reply::Retired { running }
}

/// Whether the actor has no descent, job, extent or grip.
fn has_nothing(state: &ActorState) -> bool
    ensures { result ≡ has_nothing state.now }
{
    !state.descent
        && !state.job
        && !state.published
        && state.granted == 0
        && state.reads == 0
        && state.claims == 0
        && state.writes == 0
}
