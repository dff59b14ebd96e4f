//! `Node`: the calls that read one, make one and change one.
ghost use Rattle.std.specs.Prelude.{◌≡◌, ℕ, ◌+◌, ◌<◌, ◌≤◌, ◌↔◌, ◌^◌, min, max, map, nat_lt, true, ◌||◌, IsTrue, None, Some, IsSome, IsOk, IfOk, OnOk, OnErr, Err, List, length};
ghost use Rattle.std.specs.List.{insert};
ghost use Rattle.spl_message.specs.Span.{is_from, InSpan};
ghost use Rattle.spl_bundle.specs.Numbered.{bundle_at, next_of, pushed, merged, marked, released};
ghost use Rattle.spl_node.specs.Node.{bare, pivot_at, pivot_for, span_of, live_at, is_past, AreRising, StartsIn, IsMark, IsNode};
ghost use Rattle.spl_node.specs.Steps.{fresh, with_lists, with_pivots, at_mark, with_mark, is_empty, least_mark, kept_from, trimmed, starts_below, IsSplitKey, right_pivots, right_of, left_of, lowered, lifted};
ghost use Rattle.spl_node.specs.Parts.{IsAlike, IsParted};

use crate::pivot::{Pivot, Pivots};
use smallvec::SmallVec;
use spl_base::NoMemory;
use spl_bundle::{Bundles, Limit, MAX_BRANCHES, MAX_LISTS};
use spl_message::{Bound, Key, Span};
use std::alloc::Global;
use std::marker::Model;

/// How many pivots a node can have.
pub const MAX_PIVOTS: usize = 16;

const _: () = prove!(MAX_PIVOTS == 16);

#[derive(Debug, Drop)]
struct Body {
    height: u32,
    range: Span,
    generation: u64,
    pivots: SmallVec<Pivot, MAX_PIVOTS>,
    lists: Bundles,
}

/// A node of the trunk. In a clause it is plain data: its height, range, generation, pivots and numbered
/// bundles.
#[derive(Debug, Drop)]
pub struct Node {
    body: Box<Body>,
}

impl Model for Node {
    ghost use Rattle.spl_node.specs.Node.{NodeData};

    ghost Value = { NodeData };

    ghost use Rattle.spl_node.specs.Body.{node_in, IsSound};

    ghost view = { node_in };

    ghost invariant = { IsSound };
}

impl Node {
    /// A leaf over all keys, without bundles.
    pub fn leaf(alloc: Global) -> Result<Node, NoMemory>
        ensures { IfOk result (λ node. node ≡ fresh 0 bare) }
    {
        Node::make(alloc, 0, None)
    }

    /// A node over all keys with one child.
    pub fn inner(alloc: Global, height: u32, first: Pivot) -> Result<Node, NoMemory>
        requires height { 1 ≤ height }
        requires child { IsSome first.child }
        requires start { first.start ≡ None }
        requires mark { first.mark ≡ 0 }
        ensures { IfOk result (λ node. node ≡ fresh height first) }
    {
        Node::make(alloc, height, first.child)
    }

    fn make(alloc: Global, height: u32, child: Option<u32>) -> Result<Node, NoMemory>
        requires { IsSome child ↔ (0 < height) }
        ensures { IfOk result (λ node. node
            ≡ fresh height (record { start = None; child = child; mark = 0 })) }
    {
        let mut pivots = SmallVec::new(alloc);
        pivots.push_reserved(Pivot {
            start: None,
            child,
            mark: 0,
        });
        let body = Body {
            height,
            range: Span {
                from: None,
                to: None,
            },
            generation: 0,
            pivots,
            lists: Bundles::new(alloc, 0),
        };
        Ok(Node {
            body: Box::new(alloc, body)?,
        })
    }

    /// How many levels of nodes lie below.
    pub fn height(&self) -> u32
        ensures value { result ≡ self.now.height }
        ensures node { IsNode self.now }
    {
        self.body.height
    }

    /// The range of the node's keys.
    pub fn range(&self) -> &Span
        ensures { result.now ≡ self.now.range }
    {
        &self.body.range
    }

    /// How often the node was split or raised.
    pub fn generation(&self) -> u64
        ensures { result ≡ self.now.generation }
    {
        self.body.generation
    }

    /// The pivots, in the order of their keys.
    pub fn pivots(&self) -> &[Pivot]
        ensures value { result.now ≡ self.now.pivots }
        ensures node { IsNode self.now }
    {
        self.body.pivots.as_slice()
    }

    /// The bundles.
    pub fn lists(&self) -> &Bundles
        ensures { result.now ≡ self.now.lists }
    {
        &self.body.lists
    }

    /// The actor whose mark the bundle carries.
    pub fn ticket(&self, number: u64) -> Option<u32>
        requires stands { self.now.lists.first ≤ number }
        requires made { number < next_of self.now.lists }
        ensures { result ≡ (bundle_at self.now.lists number).owner }
    {
        self.body.lists.owner(number)
    }

    /// The index of the pivot whose part of the range holds the key.
    pub fn pivot_of(&self, key: &Key) -> u32
        requires { InSpan self.now.range key.now }
        ensures value { result ≡ pivot_for self.now.pivots key.now }
        ensures within { result < length self.now.pivots }
        ensures holds { InSpan (span_of self.now result) key.now }
        ensures only { (other : ℕ) → other < length self.now.pivots
            → InSpan (span_of self.now other) key.now → other ≡ result }
    {
        let pivots = self.pivots();
        let mut found = 0;
        while is_started(pivots, found + 1, key) {
            found += 1;
        }
        found as u32
    }

    /// A copy of the branches that are live for the pivot, oldest first.
    pub fn live(&self, alloc: Global, pivot: u32) -> Result<Vec<u64>, NoMemory>
        requires { pivot < length self.now.pivots }
        ensures { IfOk result (λ branches. branches.items ≡ live_at self.now pivot) }
    {
        let lists = self.lists();
        let mark = self.pivots()[pivot as usize].mark;
        let mut live = Vec::with_capacity(alloc, lists.live_len(mark))?;
        let from = lists.first().max(mark);
        for number in from..lists.next() {
            live.extend_from_slice(lists.list(number))?;
        }
        Ok(live)
    }

    /// The number of the first bundle that a trim keeps: it has branches and is live for some pivot.
    pub fn kept_from(&self) -> u64
        ensures value { result ≡ kept_from self.now }
        ensures from { self.now.lists.first ≤ result }
        ensures made { result ≤ next_of self.now.lists }
    {
        let lists = self.lists();
        let least = self.least_mark();
        let mut number = lists.first();
        while number < lists.next() && is_dropped(lists, number, least) {
            number += 1;
        }
        number
    }

    fn least_mark(&self) -> u64
        ensures { result ≡ least_mark self.now }
    {
        let mut least = self.lists().next();
        let pivots = self.pivots();
        for pivot in pivots {
            least = least.min(pivot.mark);
        }
        least
    }

    /// Drops the bundles at the front that are empty or live for no pivot, and raises the marks below the
    /// first bundle that is left to its number.
    pub fn trim(&mut self)
        ensures value { self.new ≡ trimmed self.old }

        // No key finds other branches or another child.
        ensures alike { (key : List ℕ) → IsAlike self.old self.new key }
    {
        let kept = self.kept_from();
        let body = &mut *self.body;
        body.lists.drop_below(kept);
        raise_marks(body.pivots.as_mut_slice(), kept);
    }

    /// Inserts a pivot, which takes its part from the one before it.
    pub fn insert_pivot(&mut self, at: u32, pivot: Pivot) -> Result<(), Pivots>
        requires height { 1 ≤ self.old.height }
        requires above { 1 ≤ at }
        requires within { at ≤ length self.old.pivots }
        requires child { IsSome pivot.child }
        requires start { StartsIn self.old.range pivot.start }
        requires rising { AreRising (insert self.old.pivots at pivot) }
        requires mark { IsMark self.old.lists pivot.mark }
        ensures ok { OnOk result (self.new ≡ with_pivots self.old (insert self.old.pivots at pivot)) }
        ensures accepted { IsOk result ↔ (length self.old.pivots < MAX_PIVOTS) }
        ensures full { length self.old.pivots ≡ MAX_PIVOTS → result ≡ Err (record { pivots = MAX_PIVOTS }) }
        ensures err { OnErr result (self.new ≡ self.old) }
    {
        if self.body.pivots.len() == MAX_PIVOTS {
            return Err(Pivots {
                pivots: MAX_PIVOTS as u32,
            });
        }
        let Pivot { start, child, mark } = pivot;
        self.body
            .pivots
            .insert(at as usize, Pivot { start, child, mark })
            .unwrap();
        Ok(())
    }

    /// Raises the mark of a pivot.
    pub fn set_mark(&mut self, pivot: u32, mark: u64)
        requires within { pivot < length self.old.pivots }
        requires above { (pivot_at self.old.pivots pivot).mark ≤ mark }
        requires made { mark ≤ next_of self.old.lists }
        ensures { self.new ≡ with_mark self.old pivot mark }
    {
        self.body.pivots.as_mut_slice()[pivot as usize].mark = mark;
    }

    /// Adds a copy of the list as the newest bundle. Returns its number.
    pub fn push(&mut self, list: &[u64]) -> Result<u64, Limit>
        requires { next_of self.old.lists < 2 ^ 63 }
        ensures number { IfOk result (λ number. number ≡ next_of self.old.lists) }
        ensures ok { OnOk result (self.new ≡ with_lists self.old (pushed self.old.lists list.now)) }
        ensures accepted { IsOk result
            ↔ ((length self.old.lists.bundles < MAX_LISTS) × (length list.now ≤ MAX_BRANCHES)) }

        // A full node is reported first.
        ensures lists { length self.old.lists.bundles ≡ MAX_LISTS → result ≡ Err (Limit.Lists MAX_LISTS) }
        ensures branches { length self.old.lists.bundles < MAX_LISTS → MAX_BRANCHES < length list.now
            → result ≡ Err (Limit.Branches (min (length list.now) u32.MAX)) }
        ensures err { OnErr result (self.new ≡ self.old) }
    {
        self.body.lists.push(list)
    }

    /// Merges the bundles from `first` up to `last`: the last holds the output alone, or nothing, the others are empty,
    /// and none of them keeps its mark. Numbers of dropped bundles are skipped.
    pub fn merge(&mut self, first: u64, last: u64, output: Option<u64>)
        requires in_order { first ≤ last }
        requires stands { self.old.lists.first ≤ last }
        requires made { last < next_of self.old.lists }
        ensures { self.new ≡ with_lists self.old (merged self.old.lists first last output) }
    {
        self.body.lists.merge(first, last, output);
    }

    /// Gives the bundles from `first` up to `last` the mark of an actor, or none. Numbers of dropped bundles are
    /// skipped.
    pub fn set_ticket(&mut self, first: u64, last: u64, actor: Option<u32>)
        requires in_order { first ≤ last }
        requires stands { self.old.lists.first ≤ last }
        requires made { last < next_of self.old.lists }
        ensures { self.new ≡ with_lists self.old (marked self.old.lists first last actor) }
    {
        self.body.lists.set_owner(first, last, actor);
    }

    /// Clears every mark of the actor.
    pub fn release(&mut self, actor: u32)
        ensures { self.new ≡ with_lists self.old (released self.old.lists actor) }
    {
        self.body.lists.release(actor);
    }

    /// The right part of a split: the keys from this one on.
    pub fn right(&self, alloc: Global, key: &Key) -> Result<Node, NoMemory>
        requires { IsSplitKey self.now key.now }
        ensures value { IfOk result (λ node. node ≡ right_of self.now key.now) }

        // Each key lies in one of the two parts, under the same child and with the same live branches.
        ensures parts { IsParted self.now (left_of self.now key.now) (right_of self.now key.now) }
    {
        let range = Span {
            from: Some(*key),
            to: self.body.range.to,
        };
        let pivots = self.right_pivots(alloc, key);
        self.with_part(alloc, range, pivots)
    }

    fn right_pivots(&self, alloc: Global, key: &Key) -> SmallVec<Pivot, MAX_PIVOTS>
        ensures items { result.items ≡ right_pivots self.now.height self.now.pivots key.now }
        ensures room { MAX_PIVOTS ≤ result.capacity }
    {
        let mut right = SmallVec::new(alloc);
        let pivots = self.pivots();
        if self.height() == 0 {
            let Pivot { child, mark, .. } = pivots[0];
            let start = Some(*key);
            right.push_reserved(Pivot { start, child, mark });
        } else {
            let cut = self.starts_below(key);
            right.extend_from_slice(&pivots[cut..]).unwrap();
        }
        right
    }

    /// Keeps the left part of a split: the keys below this one.
    pub fn keep_left(&mut self, key: &Key)
        requires key { IsSplitKey self.old key.now }
        requires generation { self.old.generation < 2 ^ 63 }
        ensures value { self.new ≡ left_of self.old key.now }

        // Each key lies in one of the two parts, under the same child and with the same live branches.
        ensures parts { IsParted self.old self.new (right_of self.old key.now) }
    {
        let kept = self.starts_below(key);
        let body = &mut *self.body;
        body.pivots.truncate(kept);
        body.range.to = Some(Bound::of(key));
        body.generation += 1;
    }

    /// How many pivots start below the key.
    fn starts_below(&self, key: &Key) -> usize
        ensures value { result ≡ starts_below self.now.pivots key.now }
        ensures within { result ≤ length self.now.pivots }
    {
        let pivots = self.pivots();
        let mut count = 0;
        while is_passed(pivots, count, key) {
            count += 1;
        }
        count
    }

    /// A copy of the node with the generation 0, to be the child of a raised root.
    pub fn lower(&self, alloc: Global) -> Result<Node, NoMemory>
        ensures { IfOk result (λ node. node ≡ lowered self.now) }
    {
        let mut pivots = SmallVec::new(alloc);
        pivots.extend_from_slice(self.pivots()).unwrap();
        self.with_part(alloc, self.body.range, pivots)
    }

    /// A node with the height and the bundles of this one, and the generation 0.
    fn with_part(
        &self,
        alloc: Global,
        range: Span,
        pivots: SmallVec<Pivot, MAX_PIVOTS>,
    ) -> Result<Node, NoMemory>
        requires node { IsNode (record self.now { range = range; generation = 0; pivots = pivots.items }) }
        requires room { MAX_PIVOTS ≤ pivots.capacity }
        ensures { IfOk result (λ node. node
            ≡ record self.now { range = range; generation = 0; pivots = pivots.items }) }
    {
        let body = Body {
            height: self.body.height,
            range,
            generation: 0,
            pivots,
            lists: self.body.lists.copy(),
        };
        Ok(Node {
            body: Box::new(alloc, body)?,
        })
    }

    /// Makes the node one higher, with one child over its whole range and no bundles.
    pub fn lift(&mut self, child: u32)
        requires generation { self.old.generation < 2 ^ 63 }
        requires height { self.old.height < 2 ^ 31 }
        ensures { self.new ≡ lifted self.old child }
    {
        let start = self.body.range.from;
        self.body.pivots.clear();
        self.body.pivots.push_reserved(Pivot {
            start,
            child: Some(child),
            mark: 0,
        });
        self.body.lists.restart(0);
        self.body.height += 1;
        self.body.generation += 1;
    }
}

/// Whether there is such a pivot, and it starts at the key or below it.
fn is_started(pivots: &[Pivot], at: usize, key: &Key) -> bool
    ensures { IsTrue result
        ↔ ((at < length pivots.now) × (is_from (pivot_at pivots.now at).start key.now ≡ true)) }
{
    at < pivots.len() && pivots[at].starts_by(key)
}

/// Whether there is such a pivot, and it starts below the key.
fn is_passed(pivots: &[Pivot], at: usize, key: &Key) -> bool
    ensures { IsTrue result
        ↔ ((at < length pivots.now) × (is_past (pivot_at pivots.now at).start key.now ≡ true)) }
{
    at < pivots.len() && pivots[at].starts_below(key)
}

/// Whether a trim that drops the bundles in front of this one drops it too.
fn is_dropped(lists: &Bundles, number: u64, least: u64) -> bool
    requires stands { lists.now.first ≤ number }
    requires made { number < next_of lists.now }
    ensures { result ≡ (nat_lt number least || is_empty (bundle_at lists.now number)) }
{
    number < least || lists.list(number).is_empty()
}

/// Raises the marks that are below the number to it.
fn raise_marks(pivots: &mut [Pivot], number: u64)
    ensures { pivots.new ≡ map (λ pivot. at_mark pivot (max pivot.mark number)) pivots.old }
{
    for pivot in pivots.iter_mut() {
        pivot.mark = pivot.mark.max(number);
    }
}
