//! The step that shows a node.
ghost use Rattle.std.specs.Prelude.{◌≡◌, ℕ, ◌<◌, ◌≤◌, true, length, fold, max, flat_map, option_to_list, IfOk};
ghost use Rattle.spl_base.specs.declared.TheConstants.{ACTORS};
ghost use Rattle.spl_message.specs.Rule.{Rule};
ghost use Rattle.spl_state.specs.Frame.{IsFramed};
ghost use Rattle.spl_state.specs.Sound.{AreDrafts};
ghost use Rattle.spl_survey.specs.Surveys.{IfView, IsViewOf, OnView, children_of, surveyed, views_from};

use crate::split::split_key;
use spl_base::{ACTORS, NoMemory};
use spl_bundle::Bundles;
use spl_message::Content;
use spl_node::Pivot;
use spl_state::{BundleView, BundleViews, Parts, PivotList, Reply, View};
use std::alloc::Global;

/// Shows the node. The actor then knows the nodes up to the greatest that the view names.
pub fn survey<B: Content>(alloc: Global, parts: &mut Parts<B>, actor: u32, node: u32) -> Reply<B>
    requires { actor < ACTORS }
    ensures unknown { length parts.old.nodes ≤ node → result ≡ Reply.NoNode (length parts.old.nodes) }
    ensures answer { node < length parts.old.nodes → OnView result (λ view. Unit {0}) (result ≡ Reply.NoMemory) }
    ensures view { IfView result (IsViewOf parts.old node) }
    ensures state { OnView result (λ view. parts.new ≡ surveyed parts.old actor node) (parts.new ≡ parts.old) }
    ensures counters { parts.new.counters ≡ parts.old.counters }
    ensures framed { (rule : Rule) → (B.TELLS ≡ true → AreDrafts rule parts.old) → IsFramed rule B.TELLS parts.old parts.new actor }
{
    let nodes = parts.trunk.count();
    if node >= nodes {
        return Reply::NoNode { nodes };
    }
    match view_of(alloc, parts, node) {
        Ok(view) => {
            let greatest = greatest_named(node, view.pivots.as_slice());
            parts.actors.tell(actor, greatest);
            Reply::View(view)
        }
        Err(NoMemory) => Reply::NoMemory,
    }
}

/// The node as a survey shows it.
fn view_of<B: Content>(alloc: Global, parts: &Parts<B>, number: u32) -> Result<View, NoMemory>
    requires { number < length parts.now.nodes }
    ensures { IfOk result (IsViewOf parts.now number) }
{
    let node = parts.trunk.node(number).unwrap();
    let pivots = node.pivots();
    let mut shown = Vec::with_capacity(alloc, pivots.len())?;
    shown.extend_from_slice(pivots)?;
    Ok(View {
        height: node.height(),
        generation: node.generation(),
        pivots: PivotList::of(shown),
        bundles: bundles_of(alloc, node.lists())?,
        split: split_key(&parts.refs, node),
        running: parts.counters.running,
    })
}

/// The bundles with their numbers.
fn bundles_of(alloc: Global, lists: &Bundles) -> Result<BundleViews, NoMemory>
    ensures { IfOk result (λ views. views ≡ views_from lists.now.first lists.now.bundles) }
{
    let first = lists.first();
    let next = lists.next();
    let mut views = Vec::with_capacity(alloc, (next - first) as usize)?;
    for number in first..next {
        views.push(BundleView {
            number,
            branches: lists.list(number).len() as u32,
            ticket: lists.owner(number),
        })?;
    }
    Ok(BundleViews::of(views))
}

/// The greatest of the node's own number and its children's.
fn greatest_named(node: u32, pivots: &[Pivot]) -> u32
    ensures { result ≡ fold max node (children_of pivots.now) }
{
    let mut greatest = node;
    for pivot in pivots {
        if let Some(child) = pivot.child {
            greatest = greatest.max(child);
        }
    }
    greatest
}
