ghost use Rattle.std.specs.Prelude.{◌≡◌, List, [], ◌∷◌, ◌++◌};
ghost use Rattle.spl_turn.specs.Meaning.{MayStep};
ghost use Rattle.spl_turn.specs.Moves.{IsNoted};

use crate::guarded::Last;
use crate::history::SlotOf;
use crate::stands_for::StandsFor;
use std::snapshot::Snapshot;

/// Makes the step on the value of the slot, and notes it.
pub(crate) fn make<V: StandsFor>(slot: &mut SlotOf<V>, actor: u32, step: V::Step) -> V::Reply
    requires { (past : List V.Entry) × MayStep V.means slot.old.value actor step past }
    ensures stands { (past : List V.Entry) → MayStep V.means slot.old.value actor step past → V.means.stands slot.new.value (past ++ V.means.entry slot.old.value actor step result slot.new.value ∷ []) }
    ensures fixed { V.means.fixed slot.new.value ≡ V.means.fixed slot.old.value }
    ensures noted { IsNoted slot.old.value step result slot.new.last }
{
    let before = Snapshot::of(&slot.value);
    let asked = Snapshot::of(&step);
    let reply = slot.value.step(actor, step);
    slot.last = Some(Last {
        before,
        step: asked,
        reply: Snapshot::of(&reply),
    });
    reply
}
