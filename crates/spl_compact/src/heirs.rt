//! The nodes that hold a run. A node that has a bundle of the run has its last one, so one look at each node is enough.
ghost use Rattle.std.specs.Prelude.{◌≡◌, ◌<◌, length, position};
ghost use Rattle.spl_trunk.specs.Trunk.{node_at};
ghost use Rattle.spl_compact.specs.Installing.{is_heir};

use spl_trunk::Trunk;

/// Whether the node has the last bundle of the run, with the actor's mark.
pub(crate) fn is_heir(trunk: &Trunk, node: u32, last: u64, actor: u32) -> bool
    requires { node < length trunk.now }
    ensures { result ≡ is_heir last actor (node_at trunk.now node) }
{
    let lists = trunk.node(node).unwrap().lists();
    if last < lists.first() || lists.next() <= last {
        return false;
    }
    match lists.owner(last) {
        Some(by) => by == actor,
        None => false,
    }
}

/// The lowest-numbered such node.
pub(crate) fn first_heir(trunk: &Trunk, last: u64, actor: u32) -> Option<u32>
    ensures { result ≡ position (is_heir last actor) trunk.now }
{
    for node in 0..trunk.count() {
        if is_heir(trunk, node, last, actor) {
            return Some(node);
        }
    }
    None
}
