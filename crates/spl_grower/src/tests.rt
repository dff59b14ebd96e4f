ghost use Rattle.std.specs.Prelude.{◌≡◌, ◌<◌, ◌^◌, List, [], false, Contains, Some, IfOk, OnOk};
ghost use Rattle.spl_message.specs.Table.{as_table};
ghost use Rattle.spl_node.specs.declared.pivot.Pivot.{Pivot};
ghost use Rattle.spl_desk.specs.Calls.{HasSeen, MayCall};
ghost use Rattle.spl_job.specs.Holding.{told_by};
ghost use Rattle.spl_job.specs.Merging.{NamesChildren};

use crate::{Grown, raise_root, split_child};
use spl_alone::Alone;
use spl_core::{Core, Step};
use spl_desk::{Turns, take_turn};
use spl_job::merging::survey;
use spl_job::steps::abandon;
use spl_message::{Content, HashedKey, Key, Message, Newest};
use spl_state::{Reply, View};
use std::alloc::Global;
use std::sync::Arc;
use std::test::Fail;

/// A branch in one extent, of which nothing is told but the keys at which it may be cut.
#[derive(Drop)]
struct Thin {
    number: u64,
    extents: [u32; 1],
    cuts: Vec<Key>,
}

impl Content for Thin {
    ghost TELLS = { false };

    ghost table = { λ _. as_table [] };

    ghost number = { λ thin. thin.number };

    ghost extents = { λ thin. thin.extents };

    ghost entries = { λ _. 0 };

    ghost cuts = { λ thin. thin.cuts.items };

    ghost reach = { λ _ _. 0 };

    fn number(&self) -> u64 {
        self.number
    }

    fn extents(&self) -> &[u32] {
        &self.extents
    }

    fn entries(&self) -> u64 {
        0
    }

    fn cuts(&self) -> &[Key] {
        self.cuts.as_slice()
    }

    fn reach(&self, _key: &HashedKey) -> u32 {
        0
    }
}

/// Makes a step of a holder that has made few.
fn make<T: Turns<Thin>>(turns: &mut T, step: Step<Thin>) -> Result<Reply<Thin>, Fail>
    requires ready { T.ready turns.old }
    requires seen { HasSeen (T.saw turns.old) }
    ensures ready { T.ready turns.new }
    ensures seen { HasSeen (T.saw turns.new) }
{
    if turns.turns() >= 1 << 40 {
        return Err("too many steps".into());
    }
    Ok(take_turn(turns, step))
}

/// Makes a step that is not to be refused.
fn expect<T: Turns<Thin>>(turns: &mut T, step: Step<Thin>) -> Result<(), Fail>
    requires ready { T.ready turns.old }
    requires seen { HasSeen (T.saw turns.old) }
    ensures ready { T.ready turns.new }
    ensures seen { HasSeen (T.saw turns.new) }
{
    match make(turns, step)? {
        Reply::Done | Reply::Placed { .. } | Reply::Rotated | Reply::Picked { .. } => Ok(()),
        _ => Err("a step was refused".into()),
    }
}

/// Fills the memtable, and picks it.
fn pick<T: Turns<Thin>>(turns: &mut T) -> Result<(), Fail>
    requires ready { T.ready turns.old }
    requires seen { HasSeen (T.saw turns.old) }
    ensures ready { T.ready turns.new }
    ensures seen { HasSeen (T.saw turns.new) }
{
    for number in 0u16..1024 {
        let key = Key::read(&number.to_be_bytes())?;
        let message = Message::Delete;
        expect(turns, Step::Put { key, message })?;
    }
    expect(turns, Step::Rotate)?;
    expect(turns, Step::PickFrozen)
}

/// A branch of number 0 with nine cuts.
fn with_cuts(alloc: Global, extent: u32) -> Result<Arc<Thin>, Fail> {
    let mut cuts = Vec::with_capacity(alloc, 9)?;
    for byte in 1u8..10 {
        cuts.push(Key::read(&[byte])?)?;
    }
    let thin = Thin {
        number: 0,
        extents: [extent],
        cuts,
    };
    Ok(Arc::new(alloc, thin)?)
}

/// Hangs the branch at the root, which is then to be split.
fn hang<T: Turns<Thin>>(alloc: Global, turns: &mut T) -> Result<(), Fail>
    requires ready { T.ready turns.old }
    requires seen { HasSeen (T.saw turns.old) }
    ensures ready { T.ready turns.new }
    ensures seen { HasSeen (T.saw turns.new) }
{
    pick(turns)?;
    let Reply::Granted { extent } = make(turns, Step::Grant)? else {
        return Err("no extent was granted".into());
    };
    let branch = with_cuts(alloc, extent)?;
    expect(turns, Step::Publish { branch })?;
    expect(turns, Step::Claim { node: 0 })?;
    expect(turns, Step::Lock { node: 0 })?;
    expect(turns, Step::Incorporate)
}

/// Gives back all, and looks at the root.
fn look<T: Turns<Thin>>(turns: &mut T) -> Result<View, Fail>
    requires ready { T.ready turns.old }
    requires seen { HasSeen (T.saw turns.old) }
    ensures ready { T.ready turns.new }
    ensures seen { HasSeen (T.saw turns.new) }
    ensures turns { OnOk result ((T.means turns.new).turns < 2 ^ 41) }
    ensures nothing { OnOk result (MayCall (T.means turns.new)) }
    ensures told { OnOk result (0 < told_by (T.means turns.new)) }
    ensures children { IfOk result (NamesChildren (T.means turns.new) 0) }
{
    if turns.turns() >= 1 << 40 {
        return Err("too many steps".into());
    }
    abandon(turns);
    let _ = turns.actor();
    Ok(survey(turns, 0)?)
}

/// Raises the root.
fn raise<T: Turns<Thin>>(turns: &mut T) -> Result<Grown, Fail>
    requires ready { T.ready turns.old }
    requires seen { HasSeen (T.saw turns.old) }
    ensures ready { T.ready turns.new }
    ensures seen { HasSeen (T.saw turns.new) }
{
    look(turns)?;
    Ok(raise_root(turns)?)
}

/// The child of this pivot.
fn child_of(view: &View, pivot: usize) -> Result<u32, Fail>
    ensures { IfOk result (λ child. (one : Pivot) × Contains view.now.pivots one × (one.child ≡ Some child)) }
{
    let pivots = view.pivots.as_slice();
    if pivot >= pivots.len() {
        return Err("the root has not so many pivots".into());
    }
    match pivots[pivot].child {
        Some(child) => Ok(child),
        None => Err("the root is a leaf".into()),
    }
}

/// Splits the first child of the root.
fn split_first<T: Turns<Thin>>(turns: &mut T) -> Result<Grown, Fail>
    requires ready { T.ready turns.old }
    requires seen { HasSeen (T.saw turns.old) }
    ensures ready { T.ready turns.new }
    ensures seen { HasSeen (T.saw turns.new) }
{
    let view = look(turns)?;
    let child = child_of(&view, 0)?;
    Ok(split_child(turns, 0, child)?)
}

/// Splits the second child of the root as if it were the first one's.
fn split_beside<T: Turns<Thin>>(turns: &mut T) -> Result<Grown, Fail>
    requires ready { T.ready turns.old }
    requires seen { HasSeen (T.saw turns.old) }
    ensures ready { T.ready turns.new }
    ensures seen { HasSeen (T.saw turns.new) }
{
    let view = look(turns)?;
    let first = child_of(&view, 0)?;
    let second = child_of(&view, 1)?;
    if first == second {
        return Err("two pivots lead to one child".into());
    }
    Ok(split_child(turns, first, second)?)
}

#[test]
fn a_root_without_bundles_is_not_raised(rt: HostRuntime) -> Result<(), Fail> {
    let core: Core<Thin, Newest> = Core::new(rt.alloc(), 8, 1, Newest)?;
    let mut turns = Alone::new(core);
    assert_eq!(rt; raise(&mut turns)?, Grown::Unneeded);
    Ok(())
}

#[test]
fn a_leaf_with_many_cuts_is_raised_and_split(rt: HostRuntime) -> Result<(), Fail> {
    let core: Core<Thin, Newest> = Core::new(rt.alloc(), 8, 1, Newest)?;
    let mut turns = Alone::new(core);
    hang(rt.alloc(), &mut turns)?;
    assert_eq!(rt; raise(&mut turns)?, Grown::Done);
    assert_eq!(rt; raise(&mut turns)?, Grown::Unneeded);
    assert_eq!(rt; split_first(&mut turns)?, Grown::Done);
    assert_eq!(rt; split_beside(&mut turns)?, Grown::Moved);
    assert_eq!(rt; split_first(&mut turns)?, Grown::Done);
    assert_eq!(rt; split_first(&mut turns)?, Grown::Unneeded);
    Ok(())
}
