//! How a descent begins.
ghost use Rattle.std.specs.Prelude.{◌≡◌, ◌<◌, true, map, IfOk};
ghost use Rattle.spl_base.specs.declared.TheConstants.{ACTORS};
ghost use Rattle.spl_message.specs.Rule.{Rule};
ghost use Rattle.spl_message.specs.Table.{part_of};
ghost use Rattle.spl_tables.specs.Memtables.{tables_of};
ghost use Rattle.spl_state.specs.Bounds.{AreBelow};
ghost use Rattle.spl_state.specs.Frame.{IsFramed};
ghost use Rattle.spl_state.specs.Sound.{AreDrafts};
ghost use Rattle.spl_state.specs.View.{branch_data};
ghost use Rattle.spl_descent.specs.Descents.{begin_refusal, begun, first_descent, is_busy};
ghost use Rattle.spl_descent.specs.Sights.{Answers, IfSight, IsRight, IsSightOf, MeansRight, OnSight};

use crate::seen::sight_at;
use spl_base::{ACTORS, NoMemory};
use spl_message::{Content, Span};
use spl_state::{ActorState, Descent, Parts, Reply, Sight};
use std::alloc::Global;

/// Begins a descent for the keys of the span, at the root. It has the next place in the history of all calls,
/// and what it is given holds at that place.
pub fn begin<B: Content>(alloc: Global, parts: &mut Parts<B>, actor: u32, span: &Span) -> Reply<B>
    requires known { actor < ACTORS }
    requires fresh { AreBelow parts.old.nodes parts.old.tables parts.old.counters }
    ensures answer { Answers (begin_refusal parts.old actor) result }
    ensures state { OnSight result (λ sight. parts.new ≡ begun parts.old actor span.now)
        (parts.new ≡ parts.old) }
    ensures steps { parts.new.counters.steps ≡ parts.old.counters.steps }

    // What the sight has, and what that says of its keys.
    ensures sight { IfSight result (IsSightOf B.number (branch_data B.extents B.entries B.cuts B.table)
        parts.old (first_descent parts.old span.now)) }
    ensures tables { IfSight result (λ sight.
        sight.tables ≡ map (part_of sight.span) (tables_of parts.old.tables)) }
    ensures means { (rule : Rule) → B.TELLS ≡ true → IfSight result (λ sight.
        MeansRight rule parts.old (first_descent parts.old span.now) sight.tables) }
    ensures right { (rule : Rule) → B.TELLS ≡ true → IfSight result (λ sight.
        IsRight rule parts.old (first_descent parts.old span.now) (map B.table sight.branches)) }

    ensures framed { (rule : Rule) → (B.TELLS ≡ true → AreDrafts rule parts.old)
        → IsFramed rule B.TELLS parts.old parts.new actor }
{
    let state = parts.state(actor);
    if is_busy(&state) {
        return Reply::Unfit { state };
    }
    if let Some(by) = parts.holds.writer(0) {
        return Reply::Again { node: 0, by };
    }
    match first_sight(alloc, parts, span) {
        Ok(sight) => {
            parts.holds.read(actor, 0).unwrap();
            let descent = Descent {
                place: sight.place,
                span: sight.span,
                node: 0,
            };
            parts.actors.set_descent(actor, Some(descent));
            parts.actors.tell(actor, 0);
            parts.counters.places += 1;
            Reply::Sight(sight)
        }
        Err(NoMemory) => Reply::NoMemory,
    }
}

/// Whether the actor has a descent, a job or a latch.
fn is_busy(state: &ActorState) -> bool
    ensures { result ≡ is_busy state.now }
{
    state.descent || state.job || state.reads > 0 || state.claims > 0 || state.writes > 0
}

/// The sight of the root, with the parts of the memtables in its span.
fn first_sight<B: Content>(
    alloc: Global,
    parts: &Parts<B>,
    span: &Span,
) -> Result<Sight<B>, NoMemory>
    ensures sight { IfOk result (IsSightOf B.number (branch_data B.extents B.entries B.cuts B.table)
        parts.now (first_descent parts.now span.now)) }
    ensures tables { IfOk result (λ sight.
        sight.tables ≡ map (part_of sight.span) (tables_of parts.now.tables)) }
{
    let mut sight = sight_at(alloc, parts, parts.counters.places, span, 0)?;
    sight.tables = parts.tables.slices(alloc, &sight.span)?;
    Ok(sight)
}
