//! What single steps answer on a trunk of a few nodes.
ghost use Rattle.std.specs.Prelude.{◌<◌};

use crate::tests::{Thin, expect, hang_next, make, write};
use crate::{Core, Step};
use spl_message::{Key, Newest};
use spl_state::Reply;
use std::alloc::Global;
use std::test::Fail;

/// Ends the grip of actor 0 on the node.
fn leave(core: &mut Core<Thin, Newest>, node: u32) -> Result<(), Fail> {
    expect(core, 0, Step::Unlock { node }, "done")
}

/// Raises the root, which actor 0 then has no grip on.
fn raise(core: &mut Core<Thin, Newest>) -> Result<(), Fail> {
    write(core, 0, 0)?;
    expect(core, 0, Step::Raise, "done")?;
    leave(core, 0)
}

/// Asks for a node that is not there, to be told how many are.
fn count(core: &mut Core<Thin, Newest>, wanted: &'static str) -> Result<(), Fail> {
    expect(core, 0, Step::Survey { node: 9 }, wanted)
}

/// Splits the child, which has to be answered with this word.
fn split(
    core: &mut Core<Thin, Newest>,
    parent: u32,
    child: u32,
    at: u8,
    wanted: &'static str,
) -> Result<(), Fail> {
    let key = Key::read(&[at])?;
    write(core, 0, parent)?;
    write(core, 0, child)?;
    expect(core, 0, Step::Split { parent, child, key }, wanted)?;
    expect(core, 0, Step::Abandon, "done")
}

/// Passes on to the child, which has to be answered with this word.
fn flush(
    core: &mut Core<Thin, Newest>,
    parent: u32,
    child: u32,
    wanted: &'static str,
) -> Result<(), Fail> {
    write(core, 0, parent)?;
    write(core, 0, child)?;
    expect(core, 0, Step::Flush { parent, child }, wanted)?;
    expect(core, 0, Step::Abandon, "done")
}

#[test]
fn a_raise_and_a_split_make_one_node_each(rt: HostRuntime) -> Result<(), Fail> {
    let mut core = Core::new(rt.alloc(), 1, 1, Newest)?;
    raise(&mut core)?;
    count(&mut core, "2 nodes")?;
    split(&mut core, 0, 1, 8, "done")?;
    count(&mut core, "3 nodes")?;
    split(&mut core, 0, 2, 8, "outside")?;
    split(&mut core, 0, 1, 8, "outside")?;
    split(&mut core, 2, 1, 4, "moved")
}

#[test]
fn a_parent_has_16_pivots_at_most(rt: HostRuntime) -> Result<(), Fail> {
    let mut core = Core::new(rt.alloc(), 1, 1, Newest)?;
    raise(&mut core)?;
    for at in 1u8..16 {
        split(&mut core, 0, 1, 16 - at, "done")?;
    }
    split(&mut core, 0, 16, 20, "outside")?;
    split(&mut core, 0, 2, 20, "16 pivots")
}

#[test]
fn there_are_4096_nodes_at_most(rt: HostRuntime) -> Result<(), Fail> {
    let mut core = Core::new(rt.alloc(), 1, 1, Newest)?;
    raise(&mut core)?;
    for at in 1u8..16 {
        split(&mut core, 0, 1, 16 - at, "done")?;
    }
    write(&mut core, 0, 0)?;
    for _node in 17..4096 {
        expect(&mut core, 0, Step::Raise, "done")?;
    }
    expect(&mut core, 0, Step::Raise, "4096 nodes")?;
    expect(&mut core, 0, Step::Abandon, "done")?;

    // The first of those nodes has the 16 leaves, and the next one has it.
    split(&mut core, 18, 17, 4, "4096 nodes")
}

/// Hangs so many branches at the root, one after the other.
fn hang(alloc: Global, core: &mut Core<Thin, Newest>, from: u64, to: u64) -> Result<(), Fail> {
    for number in from..to {
        hang_next(alloc, core, number)?;
    }
    Ok(())
}

#[test]
fn a_list_of_40_branches_is_too_long(rt: HostRuntime) -> Result<(), Fail> {
    let mut core = Core::new(rt.alloc(), 40, 1, Newest)?;
    raise(&mut core)?;
    raise(&mut core)?;
    hang(rt.alloc(), &mut core, 0, 20)?;
    flush(&mut core, 0, 2, "done")?;
    hang(rt.alloc(), &mut core, 20, 40)?;
    flush(&mut core, 0, 2, "done")?;
    flush(&mut core, 2, 1, "40 branches")
}

#[test]
fn a_node_has_24_bundles_at_most(rt: HostRuntime) -> Result<(), Fail> {
    let mut core = Core::new(rt.alloc(), 25, 1, Newest)?;
    raise(&mut core)?;
    for number in 0u64..24 {
        hang_next(rt.alloc(), &mut core, number)?;
        flush(&mut core, 0, 1, "done")?;
    }
    hang_next(rt.alloc(), &mut core, 24)?;
    flush(&mut core, 0, 1, "needs room")
}

#[test]
fn a_run_that_one_child_has_passed_by_in_part_is_crossed(rt: HostRuntime) -> Result<(), Fail> {
    let mut core = Core::new(rt.alloc(), 2, 1, Newest)?;
    raise(&mut core)?;
    split(&mut core, 0, 1, 8, "done")?;
    hang_next(rt.alloc(), &mut core, 0)?;
    flush(&mut core, 0, 1, "done")?;
    hang_next(rt.alloc(), &mut core, 1)?;
    let (node, first, last) = (0, 0, 1);
    expect(
        &mut core,
        0,
        Step::Start { node, first, last },
        "crossed at 1",
    )?;
    let first = 1;
    let Reply::Ticket(ticket) = make(&mut core, 0, Step::Start { node, first, last })? else {
        return Err("no ticket was given".into());
    };
    assert_eq!(rt; (ticket.first, ticket.last, ticket.bottom), (1, 1, false));
    Ok(())
}
