//! How a merge ends in a node that has the run.
ghost use Rattle.std.specs.Prelude.{◌≡◌, ℕ, ◌+◌, ◌<◌, ◌≤◌, Bool, true, false, Option, Some, IfSome};
ghost use Rattle.spl_base.specs.declared.TheConstants.{ACTORS};
ghost use Rattle.spl_message.specs.Rule.{Rule};
ghost use Rattle.spl_trunk.specs.Trunk.{node_at};
ghost use Rattle.spl_state.specs.declared.reply.ActorState.{ActorState};
ghost use Rattle.spl_state.specs.Frame.{IsFramed};
ghost use Rattle.spl_state.specs.Sound.{AreDrafts};
ghost use Rattle.spl_state.specs.Whole.{counts};
ghost use Rattle.spl_compact.specs.Installing.{Installs, MergesToNothing, carries, install_answer, ready_in, told_in, told_next};
ghost use Rattle.spl_compact.specs.Starting.{HasRoom};
ghost use Rattle.spl_compact.specs.declared.merging.Outcome.{Outcome};

use crate::heirs::{first_heir, is_heir};
use crate::merging::{Outcome, end_names, inputs_of, replace_run, trim};
use spl_base::ACTORS;
use spl_holds::Grip;
use spl_message::Content;
use spl_state::{Actors, Job, Parts, Reply};

/// Replaces the actor's run in a node that has it by what the actor merged, and clears the run's marks there. `output`
/// says whether the actor published a branch; without one nothing is left of the run.
///
/// While another node holds the run, the job goes on there. It takes no memory, and looks at one bundle of each
/// node.
pub fn install<B: Content>(parts: &mut Parts<B>, actor: u32, node: u32, output: bool) -> Reply<B>
    requires known { actor < ACTORS }
    requires room { HasRoom parts.old }
    ensures answer { result ≡ install_answer parts.old actor node output }
    ensures served { (outcome : Outcome) → ready_in parts.old actor node output ≡ Some outcome
        → carries actor (node_at parts.old.nodes node) ≡ true
        → Installs parts.old parts.new actor node outcome }
    ensures elsewhere { (next : Option ℕ) → result ≡ Reply.Elsewhere next
        → parts.new ≡ told_next parts.old actor next }
    ensures refused { (state : ActorState) → result ≡ Reply.Unfit state → parts.new ≡ parts.old }

    // After the last node no mark is left.
    ensures ended { result ≡ Reply.Done
        → (number : ℕ) → carries actor (node_at parts.new.nodes number) ≡ false }
    ensures counts { (number : ℕ) → counts parts.new number ≤ counts parts.old number + 1 }
    ensures steps { parts.new.counters.steps ≡ parts.old.counters.steps }
    ensures places { parts.new.counters.places ≡ parts.old.counters.places }

    // The caller knows that nothing is left of the run where there is no output.
    ensures framed { (rule : Rule) → (B.TELLS ≡ true → AreDrafts rule parts.old)
        → (B.TELLS ≡ true → output ≡ false → MergesToNothing rule parts.old actor)
        → IsFramed rule B.TELLS parts.old parts.new actor }
{
    let Some(outcome) = ready(parts, actor, node, output) else {
        let state = parts.state(actor);
        return Reply::Unfit { state };
    };
    if !is_heir(&parts.trunk, node, outcome.last, actor) {
        let next = first_heir(&parts.trunk, outcome.last, actor);
        tell(&mut parts.actors, actor, next);
        return Reply::Elsewhere { next };
    }
    let inputs = inputs_of(parts.actors.at(actor));
    replace_run(
        &mut parts.trunk,
        &mut parts.refs,
        &mut parts.pool,
        node,
        outcome,
        inputs,
    );
    trim(&mut parts.trunk, &mut parts.refs, &mut parts.pool, node);
    match first_heir(&parts.trunk, outcome.last, actor) {
        Some(next) => {
            parts.actors.tell(actor, next);
            Reply::Next { node: next }
        }
        None => {
            let inputs = inputs_of(parts.actors.at(actor));
            end_names(&mut parts.refs, &mut parts.pool, inputs, outcome.output);
            parts.actors.set_job(actor, None);
            Reply::Done
        }
    }
}

/// What the actor merged, if it writes the node and made an output exactly if it says so.
fn ready<B: Content>(parts: &Parts<B>, actor: u32, node: u32, output: bool) -> Option<Outcome>
    requires { actor < ACTORS }
    ensures { result ≡ ready_in parts.now actor node output }
{
    if node >= parts.holds.nodes() || parts.holds.grip(actor, node) != Grip::Write {
        return None;
    }
    let has = parts.actors.at(actor);
    match &has.job {
        Some(Job::Merge { number, run }) if has.published == output => Some(Outcome {
            first: run.first,
            last: run.last,
            output: output.then_some(*number),
        }),
        _ => None,
    }
}

/// Tells the actor of the node, if there is one.
fn tell(actors: &mut Actors, actor: u32, node: Option<u32>)
    requires known { actor < ACTORS }
    requires number { IfSome node (λ number. number < 4096) }
    ensures { actors.new ≡ told_in actors.old actor node }
{
    if let Some(node) = node {
        actors.tell(actor, node);
    }
}
