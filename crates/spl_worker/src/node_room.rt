//! Room in a node.
ghost use Rattle.std.specs.Prelude.{◌≡◌, ◌<◌, ◌^◌, IfErr, OnErr, OnOk};
ghost use Rattle.spl_message.specs.History.{History};
ghost use Rattle.spl_desk.specs.Branches.{branch_kind};
ghost use Rattle.spl_desk.specs.Calls.{HasSeen, MadeFew, MayCall, NeverFell};
ghost use Rattle.spl_desk.specs.Quiet.{HasWorkCause, IsQuiet, WasMade};
ghost use Rattle.spl_worker.specs.Plans.{IsNamed};
ghost use Rattle.spl_worker.specs.Reliefs.{has_room, next_for};
ghost use Rattle.spl_worker.specs.Rooms.{ShowsRoom};

use crate::relief::Relief;
use crate::relieving::relieve;
use spl_branch::Branch;
use spl_bundle::MAX_LISTS;
use spl_desk::{CallFault, Desk, Turns};
use spl_message::MergeLaw;
use spl_pager::Pager;
use spl_port::Port;

/// Whether the node was seen with room.
fn has_room(relief: Relief) -> bool
    ensures { result ≡ has_room relief }
{
    matches!(relief, Relief::Room { .. })
}

/// Where to work next, so that the node gets room: back at the node if another one has room, at a child that needs room
/// first, and else where the work was.
fn next_for(node: u32, at: u32, relief: Relief) -> u32
    ensures { result ≡ next_for node at relief }
{
    match relief {
        Relief::Room { .. } => node,
        Relief::Below { child } => child,
        Relief::Grown | Relief::Flushed | Relief::Compacted | Relief::Stale => at,
    }
}

/// Makes room for one more bundle in the node. The bundles of a leaf are merged into one; a node with children flushes
/// its own to them, and room is made first in a child that is full. While others do this work, it looks again until
/// they are done.
pub fn make_room<T: Turns<Branch<P::Seal>>, P: Port, G: Pager, L: MergeLaw>(
    desk: &mut Desk<'_, T, P, G, L>,
    node: u32,
) -> Result<(), CallFault>
    requires turns { (T.means desk.old.turns).turns < 2 ^ 41 }
    requires ready { T.ready desk.old.turns }
    requires seen { HasSeen (T.saw desk.old.turns) }
    requires nothing { MayCall (T.means desk.old.turns) }
    requires law { L.rule desk.old.law.now ≡ (T.means desk.old.turns).rule }
    requires lawful { L.ready desk.old.law.now }

    // The node is the root, or one that the actor was told of.
    requires known { IsNamed (T.means desk.old.turns) node }
    ensures quiet { IsQuiet (branch_kind P.Seal.TELLS) (T.means desk.old.turns) (T.saw desk.old.turns)
        (T.means desk.new.turns) (T.saw desk.new.turns) }
    ensures nothing { MayCall (T.means desk.new.turns) }
    ensures ready { T.ready desk.new.turns }
    ensures ok_few { OnOk result (MadeFew (T.means desk.old.turns) (T.means desk.new.turns) 0) }
    ensures err_few { OnErr result (MadeFew (T.means desk.old.turns) (T.means desk.new.turns) 1) }
    ensures left { OnOk result ((T.means desk.old.turns).turns < (T.means desk.new.turns).turns) }
    ensures law { desk.new.law.now ≡ desk.old.law.now }
    ensures pager { desk.new.pager.now ≡ desk.old.pager.now }
    ensures device { desk.new.port.ghost_name ≡ desk.old.port.ghost_name }
    ensures port { NeverFell (P.counts desk.old.port.now) (P.counts desk.new.port.now) }

    // A survey of the node in this call showed it so.
    ensures made { OnOk result ((history : History) → T.saw desk.old.turns history
        → WasMade (branch_kind P.Seal.TELLS) (T.means desk.old.turns) history
        (T.means desk.new.turns) (T.saw desk.new.turns) (ShowsRoom node)) }
    ensures faults { OnOk result ((P.counts desk.new.port.now).faults ≡ (P.counts desk.old.port.now).faults) }
    ensures cause { IfErr result (HasWorkCause (branch_kind P.Seal.TELLS) (T.means desk.old.turns)
        (T.saw desk.old.turns) (T.means desk.new.turns) (T.saw desk.new.turns)
        (P.counts desk.old.port.now) (P.counts desk.new.port.now)) }
{
    let mut at = node;
    'room: loop {
        let relief = relieve(desk, at, MAX_LISTS)?;
        if at == node && has_room(relief) {
            return Ok(());
        }
        at = next_for(node, at, relief);
    }
}
