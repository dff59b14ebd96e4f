//! What a descent is given at a node.
ghost use Rattle.std.specs.Prelude.{◌≡◌, ℕ, ◌+◌, ◌<◌, ◌++◌, [], List, map, length, All, IsSome, IfOk, OnOk};
ghost use Rattle.spl_message.specs.Span.{first_end};
ghost use Rattle.spl_bundle.specs.Numbered.{live};
ghost use Rattle.spl_node.specs.Node.{span_of};
ghost use Rattle.spl_refs.specs.Refs.{branch_at};
ghost use Rattle.spl_trunk.specs.Trunk.{node_at};
ghost use Rattle.spl_state.specs.Actors.{pivot_from, StartsInside};
ghost use Rattle.spl_state.specs.View.{branch_data};
ghost use Rattle.spl_descent.specs.Descents.{descent_at};
ghost use Rattle.spl_descent.specs.Sights.{HasBranches, IsSightOf};

use spl_base::NoMemory;
use spl_bundle::Bundles;
use spl_message::{Bound, Content, Key, Span};
use spl_node::Node;
use spl_refs::Refs;
use spl_state::{Branches, Parts, Sight};
use spl_tables::Slices;
use std::alloc::Global;
use std::sync::Arc;

/// The index of the pivot that holds the start. An open start is the first pivot's.
pub fn pivot_from(node: &Node, start: &Option<Key>) -> u32
    requires { StartsInside node.now.range start.now }
    ensures { result ≡ pivot_from node.now.pivots start.now }
{
    match start {
        Some(key) => node.pivot_of(key),
        None => 0,
    }
}

/// The end of the pivot's part of the node.
fn end_of(node: &Node, pivot: u32) -> Option<Bound>
    ensures { result ≡ (span_of node.now pivot).to }
{
    match node.pivots().get(pivot as usize + 1) {
        Some(next) => match &next.start {
            Some(start) => Some(Bound::of(start)),
            None => None,
        },
        None => node.range().to,
    }
}

/// Shares the branches of these numbers, behind those that are shared already.
fn share<B: Content>(
    refs: &Refs<B>,
    numbers: &[u64],
    shared: &mut Vec<Arc<B>>,
) -> Result<(), NoMemory>
    requires { All (λ number. IsSome (branch_at refs.now number)) numbers.now }
    ensures { OnOk result ((front : List ℕ)
        → HasBranches B.number (branch_at refs.now) front (map (λ b. b.value) shared.old.items)
        → HasBranches B.number (branch_at refs.now) (front ++ numbers.now)
        (map (λ b. b.value) shared.new.items)) }
{
    for number in numbers {
        let branch = refs.find(*number).unwrap();
        shared.push(branch.clone()?)?;
    }
    Ok(())
}

/// The branches of the bundles from the mark on, oldest first.
fn live_branches<B: Content>(
    alloc: Global,
    refs: &Refs<B>,
    lists: &Bundles,
    mark: u64,
) -> Result<Branches<B>, NoMemory>
    requires { All (λ bundle. All (λ number. IsSome (branch_at refs.now number)) bundle.branches)
        lists.now.bundles }
    ensures { IfOk result (HasBranches B.number (branch_at refs.now) (live lists.now mark)) }
{
    let mut shared = Vec::with_capacity(alloc, lists.live_len(mark))?;
    let from = lists.first().max(mark);
    for number in from..lists.next() {
        share(refs, lists.list(number), &mut shared)?;
    }
    Ok(Branches::of(shared))
}

/// The sight of a descent that comes to the node with this place and asks for this span, without memtables.
pub fn sight_at<B: Content>(
    alloc: Global,
    parts: &Parts<B>,
    place: u64,
    span: &Span,
    number: u32,
) -> Result<Sight<B>, NoMemory>
    requires exists { number < length parts.now.nodes }
    requires start { StartsInside (node_at parts.now.nodes number).range span.now.from }
    ensures sight { IfOk result (IsSightOf B.number (branch_data B.extents B.entries B.cuts B.table)
        parts.now (descent_at parts.now place span.now number)) }
    ensures tables { IfOk result (λ sight. sight.tables ≡ []) }
{
    let node = parts.trunk.node(number).unwrap();
    let pivot = pivot_from(node, &span.from);
    let mark = node.pivots()[pivot as usize].mark;
    Ok(Sight {
        place,
        span: span.with_end(&end_of(node, pivot)),
        node: number,
        leaf: node.height() == 0,
        tables: Slices::empty(alloc),
        branches: live_branches(alloc, &parts.refs, node.lists(), mark)?,
    })
}
