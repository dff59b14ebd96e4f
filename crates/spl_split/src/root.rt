//! The step that makes the trunk one higher.
ghost use Rattle.std.specs.Prelude.{◌≡◌, ◌≢◌, ◌<◌, ◌^◌, true, length, OnOk, OnErr};
ghost use Rattle.spl_base.specs.declared.TheConstants.{ACTORS};
ghost use Rattle.spl_message.specs.Rule.{Rule};
ghost use Rattle.spl_trunk.specs.Moves.{raised};
ghost use Rattle.spl_trunk.specs.Tree.{IsShaped};
ghost use Rattle.spl_trunk.specs.Trunk.{node_at, lists_at};
ghost use Rattle.spl_state.specs.Bounds.{AreBelow};
ghost use Rattle.spl_state.specs.Frame.{IsFramed};
ghost use Rattle.spl_state.specs.Sound.{AreDrafts};
ghost use Rattle.spl_split.specs.Raising.{raise_answer, MayRaise, root_raised};

use spl_base::{ACTORS, NoMemory};
use spl_holds::Grip;
use spl_message::Content;
use spl_state::{Parts, Reply};
use spl_trunk::{MAX_NODES, Trunk};
use std::alloc::Global;

const ROOT: u32 = 0;

/// Raises the root: a new node gets its pivots and bundles, with their marks, and the root becomes an index node one
/// higher, over that node alone. The actor is told of the new node.
pub fn raise<B: Content>(alloc: Global, parts: &mut Parts<B>, actor: u32) -> Reply<B>
    requires known { actor < ACTORS }
    requires fresh { AreBelow parts.old.nodes parts.old.tables parts.old.counters }
    ensures answer { result ≢ Reply.NoMemory → result ≡ raise_answer parts.old actor }
    ensures memory { result ≡ Reply.NoMemory → MayRaise parts.old actor }
    ensures done { result ≡ Reply.Done → parts.new ≡ root_raised parts.old actor }
    ensures marks { result ≡ Reply.Done
        → lists_at parts.new.nodes (length parts.old.nodes) ≡ lists_at parts.old.nodes 0 }
    ensures refused { result ≢ Reply.Done → parts.new ≡ parts.old }
    ensures counters { parts.new.counters ≡ parts.old.counters }
    ensures framed { (rule : Rule) → (B.TELLS ≡ true → AreDrafts rule parts.old)
        → IsFramed rule B.TELLS parts.old parts.new actor }
{
    if parts.holds.grip(actor, ROOT) != Grip::Write {
        let state = parts.state(actor);
        return Reply::Unfit { state };
    }
    let nodes = parts.trunk.count();
    if nodes == MAX_NODES as u32 {
        return Reply::Nodes { nodes };
    }
    if raise_root(alloc, &mut parts.trunk).is_err() {
        return Reply::NoMemory;
    }
    let number = parts.holds.add();
    parts.actors.tell(actor, number);
    Reply::Done
}

/// Raises the root of the trunk over a new node.
fn raise_root(alloc: Global, trunk: &mut Trunk) -> Result<(), NoMemory>
    requires shaped { IsShaped trunk.old }
    requires room { length trunk.old < MAX_NODES }
    requires generation { (node_at trunk.old 0).generation < 2 ^ 63 }
    requires height { (node_at trunk.old 0).height < 2 ^ 31 }
    ensures ok { OnOk result (trunk.new ≡ raised trunk.old) }
    ensures err { OnErr result (trunk.new ≡ trunk.old) }
{
    let lower = trunk.node(ROOT).unwrap().lower(alloc)?;
    let Ok(number) = trunk.grow(lower) else {
        return Err(NoMemory);
    };
    trunk.lift(ROOT, number);
    Ok(())
}
