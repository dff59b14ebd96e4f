//! The step that splits a node in two.
ghost use Rattle.std.specs.Prelude.{◌≡◌, ◌≢◌, ℕ, ◌<◌, ◌≤◌, ◌+◌, ◌^◌, true, Some, length, drop, OnOk, OnErr};
ghost use Rattle.std.specs.List.{list_any};
ghost use Rattle.spl_base.specs.declared.TheConstants.{ACTORS};
ghost use Rattle.spl_holds.specs.Grip.{is_write};
ghost use Rattle.spl_holds.specs.Holds.{grip_of};
ghost use Rattle.spl_message.specs.Rule.{Rule};
ghost use Rattle.spl_trunk.specs.Moves.{divided};
ghost use Rattle.spl_trunk.specs.Tree.{IsShaped};
ghost use Rattle.spl_trunk.specs.Trunk.{node_at};
ghost use Rattle.spl_state.specs.Bounds.{AreBelow};
ghost use Rattle.spl_state.specs.Frame.{IsFramed};
ghost use Rattle.spl_state.specs.Sight.{is_inside};
ghost use Rattle.spl_state.specs.Sound.{AreDrafts};
ghost use Rattle.spl_state.specs.Whole.{counts};
ghost use Rattle.spl_split.specs.Splitting.{is_at, is_split_key, pivot_to, split_answer, CanDivide, MaySplit, HasSplit, ShareBundles};

use crate::names::name_again;
use spl_base::{ACTORS, NoMemory};
use spl_holds::{Grip, Holds};
use spl_message::{Content, Key, Span};
use spl_node::{MAX_PIVOTS, Node, Pivot};
use spl_state::{Parts, Reply};
use spl_trunk::{MAX_NODES, Trunk};
use std::alloc::Global;

/// Splits the child at the key: a new node gets the part from the key on, with the bundles and their marks, and the
/// parent a pivot for it behind the child's.
pub fn split<B: Content>(
    alloc: Global,
    parts: &mut Parts<B>,
    actor: u32,
    parent: u32,
    child: u32,
    key: &Key,
) -> Reply<B>
    requires known { actor < ACTORS }
    requires fresh { AreBelow parts.old.nodes parts.old.tables parts.old.counters }
    requires few { (number : ℕ) → counts parts.old number < 2 ^ 62 }
    ensures answer { result ≢ Reply.NoMemory → result ≡ split_answer parts.old actor parent child key.now }
    ensures memory { result ≡ Reply.NoMemory → MaySplit parts.old actor parent child key.now }
    ensures done { (at : ℕ) → pivot_to (node_at parts.old.nodes parent).pivots child ≡ Some at
        → result ≡ Reply.Done → HasSplit parts.old parts.new parent at child key.now }
    ensures marks { result ≡ Reply.Done → ShareBundles parts.old parts.new child }
    ensures few { (number : ℕ) → counts parts.new number ≤ counts parts.old number + 768 }
    ensures refused { result ≢ Reply.Done → parts.new ≡ parts.old }
    ensures counters { parts.new.counters ≡ parts.old.counters }
    ensures framed { (rule : Rule) → (B.TELLS ≡ true → AreDrafts rule parts.old)
        → IsFramed rule B.TELLS parts.old parts.new actor }
{
    if !writes(&parts.holds, actor, parent) || !writes(&parts.holds, actor, child) {
        let state = parts.state(actor);
        return Reply::Unfit { state };
    }
    let pivots = parts.trunk.node(parent).unwrap().pivots();
    let Some(at) = pivot_to(pivots, child) else {
        return Reply::Moved { child };
    };
    let node = parts.trunk.node(child).unwrap();
    if !is_split_key(node, key) {
        return Reply::Outside;
    }
    if pivots.len() == MAX_PIVOTS {
        return Reply::Pivots {
            pivots: MAX_PIVOTS as u32,
        };
    }
    let nodes = parts.trunk.count();
    if nodes == MAX_NODES as u32 {
        return Reply::Nodes { nodes };
    }
    // The new node adds references to the branches of the bundles, so their counts need room for that.
    if divide(alloc, &mut parts.trunk, parent, at, child, key).is_err() {
        return Reply::NoMemory;
    }
    name_again(&mut parts.refs, parts.trunk.node(child).unwrap().lists());
    parts.holds.add();
    Reply::Done
}

/// Whether there is such a node, and the actor writes it.
fn writes(holds: &Holds, actor: u32, node: u32) -> bool
    requires { actor < ACTORS }
    ensures { result ≡ is_write (grip_of holds.now actor node) }
{
    node < holds.nodes() && holds.grip(actor, node) == Grip::Write
}

/// The index of the pivot that leads to the child.
fn pivot_to(pivots: &[Pivot], child: u32) -> Option<usize>
    ensures { result ≡ pivot_to pivots.now child }
{
    pivots.iter().position(|pivot| pivot.child == Some(child))
}

/// Whether the node can be split at the key.
fn is_split_key(node: &Node, key: &Key) -> bool
    ensures { result ≡ is_split_key node.now key.now }
{
    if node.height() == 0 {
        is_inside(node.range(), key)
    } else {
        is_later_start(node.pivots(), key)
    }
}

/// Whether a pivot but the first starts at the key.
fn is_later_start(pivots: &[Pivot], key: &Key) -> bool
    requires { 0 < length pivots.now }
    ensures { result ≡ list_any (λ pivot. is_at key.now pivot.start) (drop 1 pivots.now) }
{
    pivots.iter().skip(1).any(|pivot| is_at(pivot, key))
}

/// Whether the pivot starts at the key.
fn is_at(pivot: &Pivot, key: &Key) -> bool
    ensures { result ≡ is_at key.now pivot.now.start }
{
    match &pivot.start {
        Some(start) => start == key,
        None => false,
    }
}

/// Whether the key lies in the range, but not at its start.
fn is_inside(range: &Span, key: &Key) -> bool
    ensures { result ≡ is_inside range.now key.now }
{
    let past = match &range.from {
        Some(start) => start < key,
        None => true,
    };
    past && range.holds(key)
}

/// Splits the child in the trunk, and gives the parent a pivot for the right part, behind that of the child.
fn divide(
    alloc: Global,
    trunk: &mut Trunk,
    parent: u32,
    at: usize,
    child: u32,
    key: &Key,
) -> Result<(), NoMemory>
    requires shaped { IsShaped trunk.old }
    requires divisible { CanDivide trunk.old parent at child key.now }
    requires generation { (node_at trunk.old child).generation < 2 ^ 63 }
    ensures ok { OnOk result (trunk.new ≡ divided trunk.old parent at child key.now) }
    ensures err { OnErr result (trunk.new ≡ trunk.old) }
{
    let right = trunk.node(child).unwrap().right(alloc, key)?;
    let mark = trunk.node(parent).unwrap().pivots()[at].mark;
    let Ok(number) = trunk.grow(right) else {
        return Err(NoMemory);
    };
    trunk.keep_left(child, key);
    let pivot = Pivot {
        start: Some(*key),
        child: Some(number),
        mark,
    };
    trunk.insert_pivot(parent, at as u32 + 1, pivot).unwrap();
    Ok(())
}
