//! The steps of a descent from a node to its child.
ghost use Rattle.std.specs.Prelude.{◌≡◌, ◌<◌, true, [], map, length, IfSome};
ghost use Rattle.spl_base.specs.declared.TheConstants.{ACTORS};
ghost use Rattle.spl_message.specs.Rule.{Rule};
ghost use Rattle.spl_node.specs.Node.{pivot_at};
ghost use Rattle.spl_trunk.specs.Trunk.{node_at};
ghost use Rattle.spl_state.specs.Actor.{actor_in};
ghost use Rattle.spl_state.specs.Actors.{pivot_from, StartsInside};
ghost use Rattle.spl_state.specs.Frame.{IsFramed};
ghost use Rattle.spl_state.specs.Sound.{AreDrafts};
ghost use Rattle.spl_state.specs.View.{branch_data};
ghost use Rattle.spl_descent.specs.Descents.{move_refusal, moved_down, next_descent};
ghost use Rattle.spl_descent.specs.Sights.{Answers, IfSight, IsRight, IsSightOf, LeadsRight, OnSight};

use crate::seen::{pivot_from, sight_at};
use spl_base::{ACTORS, NoMemory};
use spl_message::{Content, Span};
use spl_state::{Descent, Parts, Reply};
use spl_trunk::Trunk;
use std::alloc::Global;

/// Goes on to the child of the pivot that holds the descent's start: the actor reads the child, and then
/// leaves the parent.
pub fn move_down<B: Content>(alloc: Global, parts: &mut Parts<B>, actor: u32) -> Reply<B>
    requires { actor < ACTORS }
    ensures answer { Answers (move_refusal parts.old actor) result }
    ensures state { OnSight result (λ sight. parts.new ≡ moved_down parts.old actor) (parts.new ≡ parts.old) }
    ensures counters { parts.new.counters ≡ parts.old.counters }

    // What the sight has, and what that says of its keys.
    ensures sight { IfSome (actor_in parts.old.actors actor).descent (λ descent.
        IfSight result (IsSightOf B.number (branch_data B.extents B.entries B.cuts B.table)
        parts.old (next_descent parts.old descent))) }
    ensures tables { IfSight result (λ sight. sight.tables ≡ []) }
    ensures leads { (rule : Rule) → B.TELLS ≡ true
        → IfSome (actor_in parts.old.actors actor).descent (λ descent.
        IfSight result (λ sight. LeadsRight rule parts.old descent (next_descent parts.old descent))) }
    ensures right { (rule : Rule) → B.TELLS ≡ true
        → IfSome (actor_in parts.old.actors actor).descent (λ descent. IfSight result (λ sight.
        IsRight rule parts.old (next_descent parts.old descent) (map B.table sight.branches))) }

    ensures framed { (rule : Rule) → (B.TELLS ≡ true → AreDrafts rule parts.old)
        → IsFramed rule B.TELLS parts.old parts.new actor }
{
    let Some(descent) = parts.actors.at(actor).descent else {
        let state = parts.state(actor);
        return Reply::Unfit { state };
    };
    let Some(child) = child_of(&parts.trunk, descent.node, &descent.span) else {
        return Reply::Leaf;
    };
    if let Some(by) = parts.holds.writer(child) {
        return Reply::Again { node: child, by };
    }
    match sight_at(alloc, parts, descent.place, &descent.span, child) {
        Ok(sight) => {
            parts.holds.read(actor, child).unwrap();
            parts.holds.leave(actor, descent.node);
            let lower = Descent {
                place: descent.place,
                span: sight.span,
                node: child,
            };
            parts.actors.set_descent(actor, Some(lower));
            parts.actors.tell(actor, child);
            Reply::Sight(sight)
        }
        Err(NoMemory) => Reply::NoMemory,
    }
}

/// The child of the pivot that holds the start of the span, which a leaf lacks.
fn child_of(trunk: &Trunk, node: u32, span: &Span) -> Option<u32>
    requires exists { node < length trunk.now }
    requires start { StartsInside (node_at trunk.now node).range span.now.from }
    ensures { result ≡ (pivot_at (node_at trunk.now node).pivots
        (pivot_from (node_at trunk.now node).pivots span.now.from)).child }
{
    let node = trunk.node(node).unwrap();
    let pivot = pivot_from(node, &span.from);
    node.pivots()[pivot as usize].child
}
