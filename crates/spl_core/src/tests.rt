ghost use Rattle.std.specs.Prelude.{◌≡◌, ℕ, ◌<◌, List, [], false};
ghost use Rattle.spl_base.specs.declared.TheConstants.{ACTORS};
ghost use Rattle.spl_message.specs.Table.{as_table};

use crate::{Core, Step};
use spl_base::ACTORS;
use spl_message::{Content, HashedKey, Key, Message, Newest, Span};
use spl_state::Reply;
use std::alloc::Global;
use std::sync::Arc;
use std::test::Fail;

const EVERYTHING: Span = Span {
    from: None,
    to: None,
};

/// A branch in one extent, of which nothing is told.
#[derive(Drop)]
pub(crate) struct Thin {
    number: u64,
    extents: [u32; 1],
}

impl Content for Thin {
    ghost TELLS = { false };

    ghost table = { λ _. as_table [] };

    ghost number = { λ thin. thin.number };

    ghost extents = { λ thin. thin.extents };

    ghost entries = { λ _. 0 };

    ghost cuts = { λ _. [] };

    ghost reach = { λ _ _. 0 };

    fn number(&self) -> u64 {
        self.number
    }

    fn extents(&self) -> &[u32] {
        &self.extents
    }

    fn entries(&self) -> u64 {
        0
    }

    fn cuts(&self) -> &[Key] {
        &[]
    }

    fn reach(&self, _key: &HashedKey) -> u32 {
        0
    }
}

/// Makes a step of a core that has made few.
pub(crate) fn make(
    core: &mut Core<Thin, Newest>,
    actor: u32,
    step: Step<Thin>,
) -> Result<Reply<Thin>, Fail>
    requires { actor < ACTORS }
{
    if core.steps() >= 1 << 46 {
        return Err("too many steps".into());
    }
    Ok(core.step(actor, step))
}

#[test]
fn a_reader_on_the_root_keeps_a_claim_from_being_a_write(rt: HostRuntime) -> Result<(), Fail> {
    let mut core = Core::new(rt.alloc(), 4, 1, Newest)?;
    let key = Key::read(b"a")?;
    let message = Message::Delete;
    assert!(rt;
        matches!(
            make(&mut core, 0, Step::Put { key, message })?,
            Reply::Placed { place: 0 }
        )
    );
    assert!(rt; matches!(make(&mut core, 0, Step::Rotate)?, Reply::NotFull));
    let sight = match make(&mut core, 5, Step::Begin { span: EVERYTHING })? {
        Reply::Sight(sight) => sight,
        _ => return Err("a descent begins with no sight".into()),
    };
    assert_eq!(rt; (sight.place, sight.node, sight.leaf), (1, 0, true));
    assert_eq!(rt;
        (
            sight.tables.as_slice().len(),
            sight.branches.as_slice().len()
        ),
        (1, 0)
    );
    assert!(rt; matches!(make(&mut core, 5, Step::MoveDown)?, Reply::Leaf));
    assert!(rt; matches!(make(&mut core, 7, Step::Claim { node: 0 })?, Reply::Done));
    assert!(rt;
        matches!(
            make(&mut core, 7, Step::Lock { node: 0 })?,
            Reply::Again { node: 0, by: 5 }
        )
    );
    assert!(rt;
        matches!(
            make(&mut core, 7, Step::Survey { node: 1 })?,
            Reply::NoNode { nodes: 1 }
        )
    );
    let view = match make(&mut core, 7, Step::Survey { node: 0 })? {
        Reply::View(view) => view,
        _ => return Err("the root is not shown".into()),
    };
    assert_eq!(rt; (view.height, view.split, view.running), (0, None, 1));
    assert!(rt; matches!(make(&mut core, 5, Step::End)?, Reply::Done));
    assert!(rt; matches!(make(&mut core, 7, Step::Lock { node: 0 })?, Reply::Done));
    assert!(rt; matches!(make(&mut core, 7, Step::PickFrozen)?, Reply::Nothing));
    assert!(rt; matches!(make(&mut core, 7, Step::Grant)?, Reply::Unfit { .. }));
    assert!(rt; matches!(make(&mut core, 7, Step::Abandon)?, Reply::Done));
    assert!(rt;
        matches!(
            make(&mut core, 7, Step::Retire)?,
            Reply::Retired { running: 0 }
        )
    );
    assert_eq!(rt; core.steps(), 14);
    Ok(())
}

/// A word for the answer.
fn word(reply: &Reply<Thin>) -> &'static str {
    match reply {
        Reply::Done => "done",
        Reply::Placed { .. } => "placed",
        Reply::Rotated => "rotated",
        Reply::Picked { .. } => "picked",
        Reply::Ticket(ticket) if ticket.bottom => "ticket at the bottom",
        Reply::Next { node: 2 } => "next 2",
        Reply::Busy { by: 1 } => "busy by 1",
        Reply::NeedsRoom => "needs room",
        Reply::Moved { .. } => "moved",
        Reply::Outside => "outside",
        Reply::Pivots { pivots: 16 } => "16 pivots",
        Reply::Nodes { nodes: 4096 } => "4096 nodes",
        Reply::NeedsCompact { branches: 40 } => "40 branches",
        Reply::Crossed {
            child: Some(1),
            mark: 1,
        } => "crossed at 1",
        Reply::NoNode { nodes: 2 } => "2 nodes",
        Reply::NoNode { nodes: 3 } => "3 nodes",
        _ => "something else",
    }
}

/// Makes a step, which has to be answered with this word.
pub(crate) fn expect(
    core: &mut Core<Thin, Newest>,
    actor: u32,
    step: Step<Thin>,
    wanted: &'static str,
) -> Result<(), Fail>
    requires { actor < ACTORS }
{
    let reply = make(core, actor, step)?;
    if word(&reply) == wanted {
        Ok(())
    } else {
        Err(wanted.into())
    }
}

/// Takes a claim on the node, and makes it a write.
pub(crate) fn write(core: &mut Core<Thin, Newest>, actor: u32, node: u32) -> Result<(), Fail>
    requires { actor < ACTORS }
{
    expect(core, actor, Step::Claim { node }, "done")?;
    expect(core, actor, Step::Lock { node }, "done")
}

/// Publishes a branch with this number in an extent that the actor is granted.
fn publish(
    alloc: Global,
    core: &mut Core<Thin, Newest>,
    actor: u32,
    number: u64,
) -> Result<(), Fail>
    requires { actor < ACTORS }
{
    let Reply::Granted { extent } = make(core, actor, Step::Grant)? else {
        return Err("no extent was granted".into());
    };
    let thin = Thin {
        number,
        extents: [extent],
    };
    let branch = Arc::new(alloc, thin)?;
    expect(core, actor, Step::Publish { branch }, "done")
}

/// Fills the memtable, freezes it, and hangs its branch, of this number, at the root, which actor 0 then writes.
fn hang_one(alloc: Global, core: &mut Core<Thin, Newest>, number: u64) -> Result<(), Fail> {
    for number in 0u16..1024 {
        let key = Key::read(&number.to_be_bytes())?;
        let message = Message::Delete;
        expect(core, 0, Step::Put { key, message }, "placed")?;
    }
    expect(core, 0, Step::Rotate, "rotated")?;
    expect(core, 0, Step::PickFrozen, "picked")?;
    publish(alloc, core, 0, number)?;
    write(core, 0, 0)?;
    expect(core, 0, Step::Incorporate, "done")
}

/// Does the same, and leaves the root.
pub(crate) fn hang_next(
    alloc: Global,
    core: &mut Core<Thin, Newest>,
    number: u64,
) -> Result<(), Fail> {
    hang_one(alloc, core, number)?;
    expect(core, 0, Step::Unlock { node: 0 }, "done")
}

/// Asks for the bundle with number 0 of node 1, to merge it.
fn start(core: &mut Core<Thin, Newest>, actor: u32, wanted: &'static str) -> Result<(), Fail>
    requires { actor < ACTORS }
{
    let (node, first, last) = (1, 0, 0);
    expect(core, actor, Step::Start { node, first, last }, wanted)
}

/// Raises the root, and then actor 1 begins to merge in the node below.
fn raise(core: &mut Core<Thin, Newest>) -> Result<(), Fail> {
    expect(core, 0, Step::Raise, "done")?;
    expect(core, 0, Step::Unlock { node: 0 }, "done")?;
    start(core, 1, "ticket at the bottom")
}

/// Splits the node below the root, while actor 1 merges.
fn split(core: &mut Core<Thin, Newest>) -> Result<(), Fail> {
    write(core, 0, 0)?;
    write(core, 0, 1)?;
    let (parent, child, key) = (0, 1, Key::read(&[2, 0])?);
    expect(core, 0, Step::Split { parent, child, key }, "done")?;
    start(core, 0, "busy by 1")?;
    expect(
        core,
        0,
        Step::Flush {
            parent: 0,
            child: 0,
        },
        "moved",
    )?;
    expect(core, 0, Step::Abandon, "done")
}

/// Installs what actor 1 merged in the node, which is answered so.
fn install(core: &mut Core<Thin, Newest>, node: u32, wanted: &'static str) -> Result<(), Fail> {
    write(core, 1, node)?;
    expect(core, 1, Step::Install { node, output: true }, wanted)?;
    expect(core, 1, Step::Unlock { node }, "done")
}

#[test]
fn a_merge_goes_on_in_both_parts_of_a_node_that_was_split(rt: HostRuntime) -> Result<(), Fail> {
    let mut core = Core::new(rt.alloc(), 2, 1, Newest)?;
    hang_one(rt.alloc(), &mut core, 0)?;
    raise(&mut core)?;
    split(&mut core)?;
    publish(rt.alloc(), &mut core, 1, 1)?;
    install(&mut core, 1, "next 2")?;
    install(&mut core, 2, "done")?;

    // The input's extent is free again.
    start(&mut core, 0, "ticket at the bottom")?;
    publish(rt.alloc(), &mut core, 0, 2)
}
