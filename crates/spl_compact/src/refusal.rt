//! Why the bundles of a node can't be merged.
ghost use Rattle.std.specs.Prelude.{◌≡◌, ◌≤◌, find};
ghost use Rattle.spl_bundle.specs.Numbered.{next_of};
ghost use Rattle.spl_compact.specs.Starting.{all_stand, crosses, first_owner, refusal_at, run_below};

use spl_bundle::Bundles;
use spl_message::Content;
use spl_node::{Node, Pivot};
use spl_state::Reply;

/// Why the bundles from `first` up to `last` can't be merged, if they can't.
pub(crate) fn refusal<B: Content>(node: &Node, first: u64, last: u64) -> Option<Reply<B>>
    ensures { result ≡ refusal_at node.now first last }
{
    let lists = node.lists();
    let oldest = lists.first();
    if !all_stand(lists, first, last) {
        return Some(Reply::Gone { last, oldest });
    }
    if let Some(pivot) = first_crossing(node.pivots(), first, last) {
        return Some(Reply::Crossed {
            child: pivot.child,
            mark: pivot.mark,
        });
    }
    let by = first_owner(lists, first, last + 1)?;
    Some(Reply::Busy { by })
}

/// Whether there are such bundles, and the node has all of them.
fn all_stand(lists: &Bundles, first: u64, last: u64) -> bool
    ensures { result ≡ all_stand lists.now first last }
{
    first <= last && lists.first() <= first && last < lists.next()
}

/// The first pivot for which some of the bundles are live and some are not.
fn first_crossing(pivots: &[Pivot], first: u64, last: u64) -> Option<Pivot>
    ensures { result ≡ find (crosses first last) pivots.now }
{
    pivots
        .iter()
        .copied()
        .find(|pivot| first < pivot.mark && pivot.mark <= last)
}

/// The actor of the first mark on the bundles from `first` on and below `end`.
fn first_owner(lists: &Bundles, first: u64, end: u64) -> Option<u32>
    requires stands { lists.now.first ≤ first }
    requires made { end ≤ next_of lists.now }
    ensures { result ≡ first_owner (run_below lists.now first end) }
{
    for number in first..end {
        if let Some(by) = lists.owner(number) {
            return Some(by);
        }
    }
    None
}
