//! How the output replaces a run in a node, and which references are dropped with it.
ghost use Rattle.std.specs.Prelude.{◌≡◌, ℕ, ◌+◌, ◌<◌, ◌≤◌, ◌^◌, List, [], ◌++◌, length, All, IsSome};
ghost use Rattle.std.specs.Option.{option_to_list};
ghost use Rattle.spl_bundle.specs.Numbered.{merged, next_of};
ghost use Rattle.spl_node.specs.Parts.{branches_from};
ghost use Rattle.spl_node.specs.Steps.{trimmed};
ghost use Rattle.spl_refs.specs.Refs.{branch_at, count_at};
ghost use Rattle.spl_trunk.specs.Tree.{IsShaped, named};
ghost use Rattle.spl_trunk.specs.Trunk.{lists_at, node_at, with_lists_at, with_node};
ghost use Rattle.spl_state.specs.Extents.{inputs_of};
ghost use Rattle.spl_state.specs.Names.{AreAccounted};
ghost use Rattle.spl_compact.specs.Names.{LetsGo};

use crate::names::hold_all;
use spl_bundle::Bundles;
use spl_extent::Pool;
use spl_message::Content;
use spl_refs::Refs;
use spl_state::{Actor, Job, let_go_all};
use spl_trunk::Trunk;

/// The run that an actor merged, and the branch that it made of it, if it made one.
#[derive(Clone, Copy)]
pub(crate) struct Outcome {
    pub first: u64,
    pub last: u64,
    pub output: Option<u64>,
}

/// The branches that the actor's job reads.
pub(crate) fn inputs_of(actor: &Actor) -> &[u64]
    ensures { result.now ≡ inputs_of actor.now.job }
{
    match &actor.job {
        Some(Job::Merge { run, .. }) => run.inputs.as_slice(),
        _ => &[],
    }
}

/// Replaces the run in the node by the output: the node then refers to the output, and no longer to the inputs.
pub(crate) fn replace_run<B: Content>(
    trunk: &mut Trunk,
    refs: &mut Refs<B>,
    pool: &mut Pool,
    node: u32,
    outcome: Outcome,
    inputs: &[u64],
)
    requires exists { node < length trunk.old }
    requires order { outcome.first ≤ outcome.last }
    requires stands { (lists_at trunk.old node).first ≤ outcome.last }
    requires made { outcome.last < next_of (lists_at trunk.old node) }
    requires inputs { inputs.now ≡ branches_from (lists_at trunk.old node) outcome.first (outcome.last + 1) }
    requires output { All (λ number. IsSome (branch_at refs.old number)) (option_to_list outcome.output) }
    requires room { (number : ℕ) → count_at refs.old number < 2 ^ 62 }
    requires accounted { (rest : List ℕ)
        × AreAccounted B.extents (named trunk.old ++ rest) refs.old pool.old }
    ensures value { trunk.new ≡ with_lists_at trunk.old node
        (merged (lists_at trunk.old node) outcome.first outcome.last outcome.output) }
    ensures shaped { IsShaped trunk.old → IsShaped trunk.new }
    ensures accounted { (rest : List ℕ) → AreAccounted B.extents (named trunk.old ++ rest) refs.old pool.old
        → AreAccounted B.extents (named trunk.new ++ rest) refs.new pool.new }
    ensures names { LetsGo refs.old refs.new pool.old pool.new (option_to_list outcome.output) }
{
    hold_all(refs, outcome.output.as_slice());
    let_go_all(refs, pool, inputs);
    trunk.merge(node, outcome.first, outcome.last, outcome.output);
}

/// Drops the bundles at the front of the node that are empty or live for no pivot, with their references.
pub(crate) fn trim<B: Content>(trunk: &mut Trunk, refs: &mut Refs<B>, pool: &mut Pool, node: u32)
    requires exists { node < length trunk.old }
    requires accounted { (rest : List ℕ)
        × AreAccounted B.extents (named trunk.old ++ rest) refs.old pool.old }
    ensures value { trunk.new ≡ with_node trunk.old node (trimmed (node_at trunk.old node)) }
    ensures shaped { IsShaped trunk.old → IsShaped trunk.new }
    ensures accounted { (rest : List ℕ) → AreAccounted B.extents (named trunk.old ++ rest) refs.old pool.old
        → AreAccounted B.extents (named trunk.new ++ rest) refs.new pool.new }
    ensures names { LetsGo refs.old refs.new pool.old pool.new [] }
{
    let found = trunk.node(node).unwrap();
    let kept = found.kept_from();
    let_go_front(refs, pool, found.lists(), kept);
    trunk.trim(node);
}

/// Drops the references of the bundles below `end`.
fn let_go_front<B: Content>(refs: &mut Refs<B>, pool: &mut Pool, lists: &Bundles, end: u64)
    requires made { end ≤ next_of lists.now }
    requires accounted { (rest : List ℕ)
        × AreAccounted B.extents (branches_from lists.now lists.now.first end ++ rest) refs.old pool.old }
    ensures accounted { (rest : List ℕ)
        → AreAccounted B.extents (branches_from lists.now lists.now.first end ++ rest) refs.old pool.old
        → AreAccounted B.extents rest refs.new pool.new }
    ensures names { LetsGo refs.old refs.new pool.old pool.new [] }
{
    for number in lists.first()..end {
        let_go_all(refs, pool, lists.list(number));
    }
}

/// Drops the references of a job to its inputs and its output.
pub(crate) fn end_names<B: Content>(
    refs: &mut Refs<B>,
    pool: &mut Pool,
    inputs: &[u64],
    output: Option<u64>,
)
    requires accounted { (rest : List ℕ)
        × AreAccounted B.extents (inputs.now ++ (option_to_list output ++ rest)) refs.old pool.old }
    ensures accounted { (rest : List ℕ)
        → AreAccounted B.extents (inputs.now ++ (option_to_list output ++ rest)) refs.old pool.old
        → AreAccounted B.extents rest refs.new pool.new }
    ensures names { LetsGo refs.old refs.new pool.old pool.new [] }
{
    let_go_all(refs, pool, inputs);
    let_go_all(refs, pool, output.as_slice());
}
