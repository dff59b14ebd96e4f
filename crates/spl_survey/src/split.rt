//! The key at which a node is to be split.
ghost use Rattle.std.specs.Prelude.{◌≡◌, List, filter, length, slice_get};
ghost use Rattle.spl_state.specs.Sight.{is_inside, leaf_split, middle, split_key};
ghost use Rattle.spl_state.specs.View.{branch_data};
ghost use Rattle.spl_survey.specs.Surveys.{seen_in};

use spl_bundle::Bundles;
use spl_message::{Content, Key, Span};
use spl_node::Node;
use spl_refs::Refs;

/// The key at which the node is to be split, if it is to be split.
pub fn split_key<B: Content>(refs: &Refs<B>, node: &Node) -> Option<Key>
    ensures { result ≡ split_key (seen_in (branch_data B.extents B.entries B.cuts B.table) refs.now) node.now }
{
    let pivots = node.pivots();
    if node.height() == 0 {
        leaf_split(refs, node.lists(), node.range())
    } else if pivots.len() < 16 {
        None
    } else {
        pivots[8].start
    }
}

/// The middle cut of a leaf's only branch.
fn leaf_split<B: Content>(refs: &Refs<B>, lists: &Bundles, range: &Span) -> Option<Key>
    ensures { result
        ≡ leaf_split range.now (seen_in (branch_data B.extents B.entries B.cuts B.table) refs.now) lists.now.bundles }
{
    let first = lists.first();
    if lists.next() - first != 1 {
        return None;
    }
    let [number] = lists.list(first) else {
        return None;
    };
    let branch = refs.find(*number)?;
    middle_inside(branch.cuts(), range)
}

/// The middle one of the cuts inside the range, if there are at least three.
fn middle_inside(cuts: &[Key], range: &Span) -> Option<Key>
    ensures { result ≡ middle (filter (is_inside range.now) cuts.now) }
{
    let count = count_inside(cuts, range);
    if count < 3 {
        return None;
    }
    nth_inside(cuts, range, count / 2)
}

/// How many of the cuts lie inside the range.
fn count_inside(cuts: &[Key], range: &Span) -> usize
    ensures { result ≡ length (filter (is_inside range.now) cuts.now) }
{
    let mut count = 0;
    for cut in cuts {
        if is_inside(range, cut) {
            count += 1;
        }
    }
    count
}

/// The cut inside the range with so many others of them before it.
fn nth_inside(cuts: &[Key], range: &Span, index: usize) -> Option<Key>
    ensures { result ≡ slice_get (filter (is_inside range.now) cuts.now) index }
{
    let mut before = 0;
    for cut in cuts {
        if is_inside(range, cut) {
            if before == index {
                return Some(*cut);
            }
            before += 1;
        }
    }
    None
}

/// Whether the key lies in the range, but not at its start.
fn is_inside(range: &Span, key: &Key) -> bool
    ensures { result ≡ is_inside range.now key.now }
{
    let past = match &range.from {
        Some(start) => start < key,
        None => true,
    };
    past && range.holds(key)
}
