//! The latches of the trunk's nodes: an actor claims a node, then writes it, and then leaves it.
ghost use Rattle.std.specs.Prelude.{◌≡◌, ◌≢◌, ℕ, ◌<◌, true};
ghost use Rattle.spl_base.specs.declared.TheConstants.{ACTORS};
ghost use Rattle.spl_holds.specs.Grip.{may_write};
ghost use Rattle.spl_message.specs.Rule.{Rule};
ghost use Rattle.spl_state.specs.Frame.{IsFramed};
ghost use Rattle.spl_state.specs.Sound.{AreDrafts};
ghost use Rattle.spl_steps.specs.Latching.{claim_answer, lock_answer, unlock_answer, gripped};

use spl_base::ACTORS;
use spl_holds::{Grip, Held};
use spl_message::Content;
use spl_state::{Parts, Reply};

/// Claims the node, so that no other actor claims or writes it.
pub fn claim<B: Content>(parts: &mut Parts<B>, actor: u32, node: u32) -> Reply<B>
    requires known { actor < ACTORS }
    ensures answer { result ≡ claim_answer parts.old actor node }
    ensures done { result ≡ Reply.Done → parts.new ≡ gripped parts.old actor node Grip.Claim }
    ensures refused { result ≢ Reply.Done → parts.new ≡ parts.old }
    ensures framed { (rule : Rule) → (B.TELLS ≡ true → AreDrafts rule parts.old) → IsFramed rule B.TELLS parts.old parts.new actor }
{
    let state = parts.state(actor);
    let nodes = parts.holds.nodes();
    if state.descent || (node < nodes && parts.holds.grip(actor, node) != Grip::Free) {
        return Reply::Unfit { state };
    }
    if node >= nodes {
        return Reply::NoNode { nodes };
    }
    match parts.holds.claim(actor, node) {
        Ok(()) => Reply::Done,
        Err(Held { by }) => Reply::Again { node, by },
    }
}

/// Makes the actor's claim on the node a write, if nobody reads it.
pub fn lock<B: Content>(parts: &mut Parts<B>, actor: u32, node: u32) -> Reply<B>
    requires known { actor < ACTORS }
    ensures answer { result ≡ lock_answer parts.old actor node }
    ensures done { result ≡ Reply.Done → parts.new ≡ gripped parts.old actor node Grip.Write }
    ensures refused { result ≢ Reply.Done → parts.new ≡ parts.old }
    ensures framed { (rule : Rule) → (B.TELLS ≡ true → AreDrafts rule parts.old) → IsFramed rule B.TELLS parts.old parts.new actor }
{
    if node >= parts.holds.nodes() || parts.holds.grip(actor, node) != Grip::Claim {
        let state = parts.state(actor);
        return Reply::Unfit { state };
    }
    match parts.holds.lock(actor, node) {
        Ok(()) => Reply::Done,
        Err(Held { by }) => Reply::Again { node, by },
    }
}

/// Ends the actor's claim or write on the node.
pub fn unlock<B: Content>(parts: &mut Parts<B>, actor: u32, node: u32) -> Reply<B>
    requires known { actor < ACTORS }
    ensures answer { result ≡ unlock_answer parts.old actor node }
    ensures done { result ≡ Reply.Done → parts.new ≡ gripped parts.old actor node Grip.Free }
    ensures refused { result ≢ Reply.Done → parts.new ≡ parts.old }
    ensures framed { (rule : Rule) → (B.TELLS ≡ true → AreDrafts rule parts.old) → IsFramed rule B.TELLS parts.old parts.new actor }
{
    if node >= parts.holds.nodes() || !may_write(parts.holds.grip(actor, node)) {
        let state = parts.state(actor);
        return Reply::Unfit { state };
    }
    parts.holds.leave(actor, node);
    Reply::Done
}

/// Whether the grip is a claim or a write.
fn may_write(grip: Grip) -> bool
    ensures { result ≡ may_write grip }
{
    matches!(grip, Grip::Claim | Grip::Write)
}
