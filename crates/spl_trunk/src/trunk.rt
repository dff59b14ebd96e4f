//! `Trunk`: the nodes by their numbers, and the calls that change one of them.
ghost use Rattle.std.specs.Prelude.{◌≡◌, ℕ, ◌+◌, ◌<◌, ◌≤◌, ◌↔◌, ◌^◌, min, [], ◌∷◌, ◌++◌, length, List, None, Some, IsSome, IsOk, IfSome, IfOk, OnOk, OnErr, Ok, Err};
ghost use Rattle.std.specs.List.{insert};
ghost use Rattle.spl_bundle.specs.Numbered.{next_of, pushed, merged, marked, released};
ghost use Rattle.spl_node.specs.Node.{bare, pivot_at, AreRising, StartsIn, IsMark};
ghost use Rattle.spl_node.specs.Steps.{fresh, with_mark, trimmed, IsSplitKey, left_of, lifted};
ghost use Rattle.spl_trunk.specs.Trunk.{node_at, with_node, pivots_at, lists_at, with_pivots_at, with_lists_at, all_released};
ghost use Rattle.spl_trunk.specs.Tree.{IsShaped};

use crate::grow::Grow;
use spl_base::NoMemory;
use spl_bundle::{Limit, MAX_BRANCHES, MAX_LISTS};
use spl_message::Key;
use spl_node::{MAX_PIVOTS, Node, Pivot, Pivots};
use std::alloc::Global;
use std::marker::Model;

/// How many nodes a trunk can have.
pub const MAX_NODES: usize = 4096;

const _: () = prove!(MAX_NODES == 4096);

/// The nodes by their numbers, from 0. In a clause it is the list of the nodes.
///
/// A node takes one allocation of some 8 KiB, and the trunk a pointer to it.
#[derive(Debug, Drop)]
pub struct Trunk {
    nodes: Vec<Node>,
}

impl Model for Trunk {
    ghost use Rattle.std.specs.Prelude.{◌<◌, ◌≤◌, List, length};
    ghost use Rattle.spl_node.specs.Node.{NodeData};

    ghost Value = { List NodeData };

    ghost view = { λ t. t.nodes.items };

    ghost invariant = { λ t. (0 < length t.nodes.items) × (length t.nodes.items ≤ 4096) };
}

impl Trunk {
    /// A trunk of one leaf, the root.
    pub fn new(alloc: Global) -> Result<Trunk, NoMemory>
        ensures leaf { IfOk result (λ trunk. trunk ≡ fresh 0 bare ∷ []) }
        ensures shaped { IfOk result IsShaped }
    {
        let mut nodes = Vec::new(alloc);
        nodes.push(Node::leaf(alloc)?)?;
        Ok(Trunk { nodes })
    }

    /// The node with this number.
    pub fn node(&self, number: u32) -> Option<&Node>
        ensures exists { IsSome result ↔ (number < length self.now) }
        ensures value { IfSome result (λ node. node.now ≡ node_at self.now number) }
    {
        self.nodes.get(number as usize)
    }

    /// How many nodes there are.
    pub fn count(&self) -> u32
        ensures value { result ≡ length self.now }
        ensures some { 0 < result }
        ensures limit { result ≤ MAX_NODES }
    {
        self.nodes.len() as u32
    }

    /// Adds a node. Returns its number.
    pub fn grow(&mut self, node: Node) -> Result<u32, Grow>
        ensures number { IfOk result (λ number. number ≡ length self.old) }
        ensures ok { OnOk result (self.new ≡ self.old ++ node ∷ []) }
        ensures full { (result ≡ Err (Grow.Nodes MAX_NODES)) ↔ (length self.old ≡ MAX_NODES) }
        ensures nodes { (count : ℕ) → result ≡ Err (Grow.Nodes count) → count ≡ MAX_NODES }
        ensures err { OnErr result (self.new ≡ self.old) }
    {
        let count = self.nodes.len();
        if count == MAX_NODES {
            return Err(Grow::Nodes {
                nodes: MAX_NODES as u32,
            });
        }
        match self.nodes.push(node) {
            Ok(()) => Ok(count as u32),
            Err(_) => Err(Grow::NoMemory),
        }
    }

    /// Inserts a pivot into the node, which takes its part from the one before it.
    pub fn insert_pivot(&mut self, node: u32, at: u32, pivot: Pivot) -> Result<(), Pivots>
        requires exists { node < length self.old }
        requires height { 1 ≤ (node_at self.old node).height }
        requires above { 1 ≤ at }
        requires within { at ≤ length (pivots_at self.old node) }
        requires child { IsSome pivot.child }
        requires start { StartsIn (node_at self.old node).range pivot.start }
        requires rising { AreRising (insert (pivots_at self.old node) at pivot) }
        requires mark { IsMark (lists_at self.old node) pivot.mark }
        ensures ok { OnOk result
            (self.new ≡ with_pivots_at self.old node (insert (pivots_at self.old node) at pivot)) }
        ensures accepted { IsOk result ↔ (length (pivots_at self.old node) < MAX_PIVOTS) }
        ensures full { length (pivots_at self.old node) ≡ MAX_PIVOTS
            → result ≡ Err (record { pivots = MAX_PIVOTS }) }
        ensures err { OnErr result (self.new ≡ self.old) }
    {
        self.nodes[node as usize].insert_pivot(at, pivot)
    }

    /// Raises the mark of a pivot of the node.
    pub fn set_mark(&mut self, node: u32, pivot: u32, mark: u64)
        requires exists { node < length self.old }
        requires within { pivot < length (pivots_at self.old node) }
        requires above { (pivot_at (pivots_at self.old node) pivot).mark ≤ mark }
        requires made { mark ≤ next_of (lists_at self.old node) }
        ensures value { self.new ≡ with_node self.old node (with_mark (node_at self.old node) pivot mark) }
        ensures shaped { IsShaped self.old → IsShaped self.new }
    {
        self.nodes[node as usize].set_mark(pivot, mark);
    }

    /// Adds a copy of the list as the newest bundle of the node. Returns its number.
    pub fn push(&mut self, node: u32, list: &[u64]) -> Result<u64, Limit>
        requires exists { node < length self.old }
        requires numbers { next_of (lists_at self.old node) < 2 ^ 63 }
        ensures number { IfOk result (λ number. number ≡ next_of (lists_at self.old node)) }
        ensures ok { OnOk result
            (self.new ≡ with_lists_at self.old node (pushed (lists_at self.old node) list.now)) }
        ensures accepted { IsOk result
            ↔ ((length (lists_at self.old node).bundles < MAX_LISTS) × (length list.now ≤ MAX_BRANCHES)) }

        // A full node is reported first.
        ensures lists { length (lists_at self.old node).bundles ≡ MAX_LISTS
            → result ≡ Err (Limit.Lists MAX_LISTS) }
        ensures branches { length (lists_at self.old node).bundles < MAX_LISTS
            → MAX_BRANCHES < length list.now
            → result ≡ Err (Limit.Branches (min (length list.now) u32.MAX)) }
        ensures err { OnErr result (self.new ≡ self.old) }
        ensures shaped { IsShaped self.old → IsShaped self.new }
    {
        self.nodes[node as usize].push(list)
    }

    /// Merges the bundles of the node from `first` up to `last`.
    pub fn merge(&mut self, node: u32, first: u64, last: u64, output: Option<u64>)
        requires exists { node < length self.old }
        requires in_order { first ≤ last }
        requires stands { (lists_at self.old node).first ≤ last }
        requires made { last < next_of (lists_at self.old node) }
        ensures value { self.new
            ≡ with_lists_at self.old node (merged (lists_at self.old node) first last output) }
        ensures shaped { IsShaped self.old → IsShaped self.new }
    {
        self.nodes[node as usize].merge(first, last, output);
    }

    /// Gives the bundles of the node from `first` up to `last` the mark of an actor, or none.
    pub fn set_ticket(&mut self, node: u32, first: u64, last: u64, actor: Option<u32>)
        requires exists { node < length self.old }
        requires in_order { first ≤ last }
        requires stands { (lists_at self.old node).first ≤ last }
        requires made { last < next_of (lists_at self.old node) }
        ensures value { self.new
            ≡ with_lists_at self.old node (marked (lists_at self.old node) first last actor) }
        ensures shaped { IsShaped self.old → IsShaped self.new }
    {
        self.nodes[node as usize].set_ticket(first, last, actor);
    }

    /// Clears every mark of the actor in the node.
    pub fn release(&mut self, node: u32, actor: u32)
        requires { node < length self.old }
        ensures value { self.new ≡ with_lists_at self.old node (released (lists_at self.old node) actor) }
        ensures shaped { IsShaped self.old → IsShaped self.new }
    {
        self.nodes[node as usize].release(actor);
    }

    /// Clears every mark of the actor in every node.
    pub fn release_all(&mut self, actor: u32)
        ensures value { self.new ≡ all_released self.old actor }
        ensures shaped { IsShaped self.old → IsShaped self.new }
    {
        release_all(self.nodes.as_mut_slice(), actor);
    }

    /// Leaves the part of the node below the key.
    pub fn keep_left(&mut self, node: u32, key: &Key)
        requires exists { node < length self.old }
        requires key { IsSplitKey (node_at self.old node) key.now }
        requires generation { (node_at self.old node).generation < 2 ^ 63 }
        ensures { self.new ≡ with_node self.old node (left_of (node_at self.old node) key.now) }
    {
        self.nodes[node as usize].keep_left(key);
    }

    /// Makes the node one higher, with one child over its whole range and no bundles.
    pub fn lift(&mut self, node: u32, child: u32)
        requires exists { node < length self.old }
        requires generation { (node_at self.old node).generation < 2 ^ 63 }
        requires height { (node_at self.old node).height < 2 ^ 31 }
        ensures { self.new ≡ with_node self.old node (lifted (node_at self.old node) child) }
    {
        self.nodes[node as usize].lift(child);
    }

    /// Drops the bundles at the front of the node that are empty or live for no pivot.
    pub fn trim(&mut self, node: u32)
        requires { node < length self.old }
        ensures value { self.new ≡ with_node self.old node (trimmed (node_at self.old node)) }
        ensures shaped { IsShaped self.old → IsShaped self.new }
    {
        self.nodes[node as usize].trim();
    }
}

/// Clears every mark of the actor in the nodes.
fn release_all(nodes: &mut [Node], actor: u32)
    ensures { nodes.new ≡ all_released nodes.old actor }
{
    for node in nodes.iter_mut() {
        node.release(actor);
    }
}
