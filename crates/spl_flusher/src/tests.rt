ghost use Rattle.std.specs.Prelude.{◌≡◌, ◌<◌, ◌^◌, true};
ghost use Rattle.spl_desk.specs.Calls.{HasSeen, MayCall};
ghost use Rattle.spl_job.specs.Holding.{told_by};

use crate::{Flushed, flush_to};
use spl_alone::Alone;
use spl_branch::Branch;
use spl_core::{Core, Step};
use spl_desk::{Turns, take_turn};
use spl_job::steps::abandon;
use spl_message::{Content, Newest};
use spl_port::MemSeal;
use spl_state::Reply;
use std::test::Fail;

/// Raises the root, so that node 1 is its only child.
fn raise<B: Content, T: Turns<B>>(turns: &mut T) -> bool
    requires turns { (T.means turns.old).turns < 2 ^ 40 }
    requires ready { T.ready turns.old }
    requires seen { HasSeen (T.saw turns.old) }
    ensures turns { (T.means turns.new).turns < 2 ^ 41 }
    ensures ready { T.ready turns.new }
    ensures seen { HasSeen (T.saw turns.new) }
    ensures nothing { MayCall (T.means turns.new) }
    ensures told { result ≡ true → 1 < told_by (T.means turns.new) }
{
    let _ = turns.actor();
    let _ = take_turn(turns, Step::Claim { node: 0 });
    let _ = take_turn(turns, Step::Lock { node: 0 });
    let reply = take_turn(turns, Step::Raise);
    abandon(turns);
    matches!(reply, Reply::Done)
}

#[test]
fn bundles_move_to_a_child_and_to_no_other_node(rt: HostRuntime) -> Result<(), Fail> {
    let core: Core<Branch<MemSeal>, Newest> = Core::new(rt.alloc(), 8, 1, Newest)?;
    let mut turns = Alone::new(core);
    if !raise(&mut turns) {
        return Err("the root is not raised".into());
    }
    assert!(rt; flush_to(&mut turns, 0, 1)? == Flushed::Done);
    assert!(rt; flush_to(&mut turns, 1, 0)? == Flushed::Moved);
    Ok(())
}
