ghost use Rattle.std.specs.Prelude.{◌≡◌, ℕ, ◌<◌, true};
ghost use Rattle.spl_base.specs.declared.TheConstants.{ACTORS};
ghost use Rattle.spl_message.specs.Rule.{Rule};
ghost use Rattle.spl_state.specs.Frame.{IsFramed};
ghost use Rattle.spl_state.specs.Sound.{AreDrafts};
ghost use Rattle.spl_abandon.specs.Abandoning.{HasAbandoned};

use crate::job::{clear_marks, end_names};
use spl_base::ACTORS;
use spl_message::Content;
use spl_state::{Parts, Reply};

/// Takes back all that the actor has: its descent, its latches, the extents that it was granted, and its job with
/// the marks of its run and the branch that it published. A memtable that it picked can be picked again.
///
/// It takes no memory. Only an actor that merges costs a pass over the nodes.
pub fn abandon<B: Content>(parts: &mut Parts<B>, actor: u32) -> Reply<B>
    requires known { actor < ACTORS }
    ensures answer { result ≡ Reply.Done }
    ensures done { HasAbandoned parts.old parts.new actor }
    ensures framed { (rule : Rule) → (B.TELLS ≡ true → AreDrafts rule parts.old)
        → IsFramed rule B.TELLS parts.old parts.new actor }
{
    clear_marks(&mut parts.trunk, &parts.actors, actor);
    end_names(&mut parts.refs, &mut parts.pool, parts.actors.at(actor));
    parts.pool.give_back_all(actor);
    parts.holds.leave_all(actor);
    parts.tables.release(actor);
    parts.actors.clear(actor);
    Reply::Done
}
