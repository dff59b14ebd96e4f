ghost use Rattle.std.specs.Prelude.{◌≡◌, ◌≢◌, ℕ, ◌+◌, ◌<◌, ◌≤◌, ◌^◌, true, Some, List, ◌++◌, IsTrue, IsSome, length};
ghost use Rattle.spl_base.specs.declared.TheConstants.{ACTORS};
ghost use Rattle.spl_bundle.specs.declared.bundles.TheConstants.{MAX_LISTS, MAX_BRANCHES};
ghost use Rattle.spl_bundle.specs.Numbered.{live, next_of};
ghost use Rattle.spl_extent.specs.Pool.{granted_to};
ghost use Rattle.spl_holds.specs.Grip.{is_write};
ghost use Rattle.spl_holds.specs.Holds.{grip_of};
ghost use Rattle.spl_message.specs.Rule.{Rule};
ghost use Rattle.spl_node.specs.Node.{live_at, pivot_at};
ghost use Rattle.spl_refs.specs.Refs.{held_at, count_at, branch_at};
ghost use Rattle.spl_state.specs.Bounds.{AreBelow};
ghost use Rattle.spl_state.specs.Frame.{IsFramed};
ghost use Rattle.spl_state.specs.Names.{AreAccounted};
ghost use Rattle.spl_state.specs.Sound.{AreDrafts};
ghost use Rattle.spl_state.specs.Whole.{counts};
ghost use Rattle.spl_trunk.specs.Moves.{passed, received};
ghost use Rattle.spl_trunk.specs.Tree.{times, IsShaped};
ghost use Rattle.spl_trunk.specs.Trunk.{node_at, with_node};
ghost use Rattle.spl_flush.specs.Flushing.{pivot_to, flush_answer, dead_names, IsFlushed, AreFew};

use crate::names::{hold_all, let_go_below};
use arrayvec::ArrayVec;
use spl_base::ACTORS;
use spl_bundle::{Bundles, MAX_BRANCHES, MAX_LISTS};
use spl_extent::Pool;
use spl_holds::{Grip, Holds};
use spl_message::Content;
use spl_node::Node;
use spl_refs::Refs;
use spl_state::{Parts, Reply};
use spl_trunk::Trunk;

/// Makes what is live in the parent for the child the child's newest bundle, unless it is nothing, and drops the
/// parent's bundles that are live for no child any more. Branches without references free their extents.
///
/// Nobody writes a node that does not exist, so an actor that names one is unfit.
pub fn flush<B: Content>(parts: &mut Parts<B>, actor: u32, parent: u32, child: u32) -> Reply<B>
    requires known { actor < ACTORS }
    requires fresh { AreBelow parts.old.nodes parts.old.tables parts.old.counters }
    requires few { AreFew parts.old }
    ensures answer { result ≡ flush_answer parts.old actor parent child }
    ensures done { (pivot : ℕ) → pivot_to (node_at parts.old.nodes parent).pivots child ≡ Some pivot
        → result ≡ Reply.Done → IsFlushed parts.old parts.new parent pivot child }
    ensures refused { result ≢ Reply.Done → parts.new ≡ parts.old }
    ensures counters { parts.new.counters ≡ parts.old.counters }
    ensures named { (number : ℕ) → counts parts.new number ≤ counts parts.old number + MAX_BRANCHES }
    ensures framed { (rule : Rule) → (B.TELLS ≡ true → AreDrafts rule parts.old)
        → IsFramed rule B.TELLS parts.old parts.new actor }
{
    if !writes(&parts.holds, actor, parent) || !writes(&parts.holds, actor, child) {
        let state = parts.state(actor);
        return Reply::Unfit { state };
    }
    let from = parts.trunk.node(parent).unwrap();
    let Some(pivot) = pivot_to(from, child) else {
        return Reply::Moved { child };
    };
    if parts.trunk.node(child).unwrap().lists().is_full() {
        return Reply::NeedsRoom;
    }
    let branches = live_len(from, pivot);
    if branches as usize > MAX_BRANCHES {
        return Reply::NeedsCompact { branches };
    }
    receive(&mut parts.trunk, &mut parts.refs, parent, pivot, child);
    pass(
        &mut parts.trunk,
        &mut parts.refs,
        &mut parts.pool,
        parent,
        pivot,
    );
    Reply::Done
}

/// Whether the actor writes the node, which may be none.
fn writes(holds: &Holds, actor: u32, node: u32) -> bool
    requires { actor < ACTORS }
    ensures answer { result ≡ is_write (grip_of holds.now actor node) }
    ensures exists { IsTrue result → node < length holds.now }
{
    node < holds.nodes() && holds.grip(actor, node) == Grip::Write
}

/// The pivot that leads to the child.
fn pivot_to(node: &Node, child: u32) -> Option<u32>
    ensures { result ≡ pivot_to node.now.pivots child }
{
    let pivots = node.pivots();
    for pivot in 0..pivots.len() {
        if pivots[pivot].child == Some(child) {
            return Some(pivot as u32);
        }
    }
    None
}

/// How many branches are live for the pivot.
fn live_len(node: &Node, pivot: u32) -> u32
    requires { pivot < length node.now.pivots }
    ensures { result ≡ length (live_at node.now pivot) }
{
    let lists = node.lists();
    let mark = node.pivots()[pivot as usize].mark;
    if mark >= lists.next() {
        return 0;
    }
    lists.live_len(mark) as u32
}

/// Makes what is live for the pivot the newest bundle of its child, unless it is nothing.
fn receive<B: Content>(trunk: &mut Trunk, refs: &mut Refs<B>, parent: u32, pivot: u32, child: u32)
    requires parent { parent < length trunk.old }
    requires child { child < length trunk.old }
    requires pivot { pivot < length (node_at trunk.old parent).pivots }
    requires room { length (node_at trunk.old child).lists.bundles < MAX_LISTS }
    requires short { length (live_at (node_at trunk.old parent) pivot) ≤ MAX_BRANCHES }
    requires there { (number : ℕ) → 0 < times number (live_at (node_at trunk.old parent) pivot)
        → IsSome (held_at refs.old number) }
    requires few { (number : ℕ) → count_at refs.old number < 2 ^ 62 }
    requires numbers { next_of (node_at trunk.old child).lists < 2 ^ 63 }
    ensures nodes { trunk.new ≡ with_node trunk.old child
        (received (node_at trunk.old child) (live_at (node_at trunk.old parent) pivot)) }
    ensures shaped { IsShaped trunk.old → IsShaped trunk.new }
    ensures counts { (number : ℕ) → count_at refs.new number
        ≡ count_at refs.old number + times number (live_at (node_at trunk.old parent) pivot) }
    ensures branches { (number : ℕ) → branch_at refs.new number ≡ branch_at refs.old number }
{
    let from = trunk.node(parent).unwrap();
    let live = joined(from.lists(), from.pivots()[pivot as usize].mark);
    let live = live.as_slice();
    hold_all(refs, live);
    if !live.is_empty() {
        trunk.push(child, live).unwrap();
    }
}

/// The branches of the bundles from the mark on, oldest first.
fn joined(lists: &Bundles, mark: u64) -> ArrayVec<u64, MAX_BRANCHES>
    requires { length (live lists.now mark) ≤ MAX_BRANCHES }
    ensures { result.items ≡ live lists.now mark }
{
    let mut joined = ArrayVec::new();
    let from = lists.first().max(mark);
    for number in from..lists.next() {
        joined.try_extend_from_slice(lists.list(number)).unwrap();
    }
    joined
}

/// Leaves nothing live for the pivot, and drops the bundles that are live for no pivot any more.
fn pass<B: Content>(trunk: &mut Trunk, refs: &mut Refs<B>, pool: &mut Pool, node: u32, pivot: u32)
    requires exists { node < length trunk.old }
    requires within { pivot < length (node_at trunk.old node).pivots }
    requires mark { (pivot_at (node_at trunk.old node).pivots pivot).mark
        ≤ next_of (node_at trunk.old node).lists }
    requires accounted { (rest : List ℕ)
        × AreAccounted B.extents (dead_names (node_at trunk.old node) pivot ++ rest) refs.old pool.old }
    ensures nodes { trunk.new ≡ with_node trunk.old node (passed (node_at trunk.old node) pivot) }
    ensures shaped { IsShaped trunk.old → IsShaped trunk.new }
    ensures accounted { (rest : List ℕ)
        → AreAccounted B.extents (dead_names (node_at trunk.old node) pivot ++ rest) refs.old pool.old
        → AreAccounted B.extents rest refs.new pool.new }
    ensures granted { (actor : ℕ) → granted_to pool.new actor ≡ granted_to pool.old actor }
    ensures branches { (other : ℕ) → 0 < count_at refs.new other
        → branch_at refs.new other ≡ branch_at refs.old other }
    ensures fewer { (other : ℕ) → count_at refs.new other ≤ count_at refs.old other }
{
    let next = trunk.node(node).unwrap().lists().next();
    trunk.set_mark(node, pivot, next);
    let left = trunk.node(node).unwrap();
    let kept = left.kept_from();
    let_go_below(refs, pool, left.lists(), kept);
    trunk.trim(node);
}
