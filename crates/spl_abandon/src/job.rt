//! How a job is undone that its actor gives up: the marks of its run are cleared, and its references dropped.
ghost use Rattle.std.specs.Prelude.{◌≡◌, ℕ, ◌<◌, List, ◌++◌};
ghost use Rattle.spl_base.specs.declared.TheConstants.{ACTORS};
ghost use Rattle.spl_extent.specs.Pool.{granted_to};
ghost use Rattle.spl_refs.specs.Refs.{count_at, branch_at};
ghost use Rattle.spl_state.specs.Extents.{named_by};
ghost use Rattle.spl_state.specs.Names.{AreAccounted};
ghost use Rattle.spl_state.specs.Runs.{AreInRuns};
ghost use Rattle.spl_abandon.specs.Abandoning.{drafted, merges};
ghost use Rattle.spl_trunk.specs.Trunk.{all_released};

use spl_base::ACTORS;
use spl_extent::Pool;
use spl_message::Content;
use spl_refs::Refs;
use spl_state::{Actor, Actors, Job, let_go, let_go_all};
use spl_trunk::Trunk;

/// Clears the actor's marks. Only a merge has marks, so all other actors need no pass over the nodes.
pub(crate) fn clear_marks(trunk: &mut Trunk, actors: &Actors, actor: u32)
    requires known { actor < ACTORS }
    requires runs { AreInRuns trunk.old actors.now }
    ensures { trunk.new ≡ all_released trunk.old actor }
{
    if merges(actors.at(actor)) {
        trunk.release_all(actor);
    }
}

/// Whether the actor's job merges a run.
fn merges(actor: &Actor) -> bool
    ensures { result ≡ merges actor.now.job }
{
    matches!(actor.job, Some(Job::Merge { .. }))
}

/// Drops the references of the actor's job: those to its inputs, and to what it published.
pub(crate) fn end_names<B: Content>(refs: &mut Refs<B>, pool: &mut Pool, actor: &Actor)
    requires accounted { (rest : List ℕ)
        × AreAccounted B.extents (named_by actor.now ++ rest) refs.old pool.old }
    ensures accounted { (rest : List ℕ)
        → AreAccounted B.extents (named_by actor.now ++ rest) refs.old pool.old
        → AreAccounted B.extents rest refs.new pool.new }
    ensures granted { (other : ℕ) → granted_to pool.new other ≡ granted_to pool.old other }
    ensures branches { (other : ℕ) → 0 < count_at refs.new other
        → branch_at refs.new other ≡ branch_at refs.old other }
{
    match &actor.job {
        None => {}
        Some(Job::Pack { number, .. }) => end_draft(refs, pool, actor.published, *number),
        Some(Job::Merge { number, run }) => {
            let_go_all(refs, pool, run.inputs.as_slice());
            end_draft(refs, pool, actor.published, *number);
        }
    }
}

/// Drops the reference to a job's branch, if the job published it.
fn end_draft<B: Content>(refs: &mut Refs<B>, pool: &mut Pool, published: bool, number: u64)
    requires accounted { (rest : List ℕ)
        × AreAccounted B.extents (drafted number published ++ rest) refs.old pool.old }
    ensures accounted { (rest : List ℕ)
        → AreAccounted B.extents (drafted number published ++ rest) refs.old pool.old
        → AreAccounted B.extents rest refs.new pool.new }
    ensures granted { (other : ℕ) → granted_to pool.new other ≡ granted_to pool.old other }
    ensures branches { (other : ℕ) → 0 < count_at refs.new other
        → branch_at refs.new other ≡ branch_at refs.old other }
{
    if published {
        let_go(refs, pool, number);
    }
}
