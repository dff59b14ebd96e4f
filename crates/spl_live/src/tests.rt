ghost use Rattle.std.specs.Prelude.{◌+◌, ◌<◌, ◌^◌, OnOk};
ghost use Rattle.spl_desk.specs.Calls.{HasSeen, IsSameCaller, MadeFew, MayCall};
ghost use Rattle.spl_session.specs.Calling.{MayAsk};

use crate::{Watch, Watched, WatchedPort, delete, insert, lookup, next, work};
use spl_alone::Alone;
use spl_branch::{Branch, BranchFault};
use spl_core::{Core, Step};
use spl_desk::{CallFault, Desk, Turns, take_turn};
use spl_down::{abandon, begin, end};
use spl_message::{Key, MergeLaw, Newest, Span, Value};
use spl_pager::{Direct, Pager};
use spl_port::{MemPort, Port};
use spl_range::Pieces;
use spl_state::Reply;
use std::process::Abort;
use std::test::Fail;

/// How many keys begin with `w`, and how many with `y`.
const EACH: u32 = 20_000;

/// The span of all keys.
const ALL: Span = Span {
    from: None,
    to: None,
};

/// More pieces than a scan has.
const MOST_PIECES: u32 = 5_000;

/// The key of a letter and a number of five digits.
fn key_of(rt: &impl Abort, letter: u8, number: u32) -> Key {
    let mut bytes = [letter, b'0', b'0', b'0', b'0', b'0'];
    let mut rest = number;
    for back in 0..5usize {
        bytes[5 - back] = b'0' + (rest % 10) as u8;
        rest /= 10;
    }
    Key::read(&bytes).expect(rt, "six bytes")
}

/// The key with this number among all that have a value in the end.
fn nth_key(rt: &impl Abort, number: u32) -> Key {
    if number < EACH {
        key_of(rt, b'w', number)
    } else {
        key_of(rt, b'y', number - EACH)
    }
}

/// Puts the value for the first keys.
fn insert_some<T: Turns<Branch<P::Seal>>, P: Port, G: Pager, L: MergeLaw>(
    rt: &impl Abort,
    desk: &mut Desk<'_, T, P, G, L>,
    value: &Value,
    count: u32,
) -> Result<(), CallFault>
    requires { MayAsk (T.means desk.old.turns) (T.saw desk.old.turns) (T.ready desk.old.turns) (L.rule desk.old.law.now) (L.ready desk.old.law.now) }
    ensures { OnOk result (MayAsk (T.means desk.new.turns) (T.saw desk.new.turns) (T.ready desk.new.turns)
        (L.rule desk.new.law.now) (L.ready desk.new.law.now)) }
{
    for number in 0..count {
        insert(desk, &nth_key(rt, number), value)?;
    }
    Ok(())
}

/// Puts `x` and all other keys, deletes `x`, and puts the others again.
fn write_all<T: Turns<Branch<P::Seal>>, P: Port, G: Pager, L: MergeLaw>(
    rt: &impl Abort,
    desk: &mut Desk<'_, T, P, G, L>,
    value: &Value,
) -> Result<(), CallFault>
    requires { MayAsk (T.means desk.old.turns) (T.saw desk.old.turns) (T.ready desk.old.turns) (L.rule desk.old.law.now) (L.ready desk.old.law.now) }
    ensures { OnOk result (MayAsk (T.means desk.new.turns) (T.saw desk.new.turns) (T.ready desk.new.turns)
        (L.rule desk.new.law.now) (L.ready desk.new.law.now)) }
{
    let x = Key::read(b"x").expect(rt, "a byte");
    insert(desk, &x, value)?;
    insert_some(rt, desk, value, 2 * EACH)?;
    delete(desk, &x)?;
    insert_some(rt, desk, value, 2 * EACH)
}

/// Looks up `x` and 99 other keys.
fn look_up_some<T: Turns<Branch<P::Seal>>, P: Port, G: Pager, L: MergeLaw>(
    rt: &impl Abort,
    desk: &mut Desk<'_, T, P, G, L>,
    value: &Value,
) -> Result<(), CallFault>
    requires { MayAsk (T.means desk.old.turns) (T.saw desk.old.turns) (T.ready desk.old.turns) (L.rule desk.old.law.now) (L.ready desk.old.law.now) }
    ensures { OnOk result (MayAsk (T.means desk.new.turns) (T.saw desk.new.turns) (T.ready desk.new.turns)
        (L.rule desk.new.law.now) (L.ready desk.new.law.now)) }
{
    let x = Key::read(b"x").expect(rt, "a byte");
    assert!(rt; lookup(desk, &x)?.is_none());
    for number in 1..100u32 {
        let key = nth_key(rt, number * (EACH / 50));
        let found = lookup(desk, &key)?.expect(rt, "a value");
        assert!(rt; found == *value, "key {number}");
    }
    Ok(())
}

/// Whether these are all keys from this number on, each with the value.
fn are_next(rt: &impl Abort, pairs: &[(Key, Value)], from: u32, value: &Value) -> bool {
    let mut number = from;
    for (key, found) in pairs {
        if *key != nth_key(rt, number) || found != value {
            return false;
        }
        number = number.saturating_add(1);
    }
    true
}

/// Scans all keys, and gives how many there are.
fn scan_all<T: Turns<Branch<P::Seal>>, P: Port, G: Pager, L: MergeLaw>(
    rt: &impl Abort,
    desk: &mut Desk<'_, T, P, G, L>,
    value: &Value,
) -> Result<u32, CallFault>
    requires { MayAsk (T.means desk.old.turns) (T.saw desk.old.turns) (T.ready desk.old.turns) (L.rule desk.old.law.now) (L.ready desk.old.law.now) }
    ensures { OnOk result (MayAsk (T.means desk.new.turns) (T.saw desk.new.turns) (T.ready desk.new.turns)
        (L.rule desk.new.law.now) (L.ready desk.new.law.now)) }
{
    let mut pieces = Pieces::new(ALL);
    let mut count = 0u32;
    'pieces: for _ in 0..MOST_PIECES {
        let Some(piece) = next(desk, &mut pieces)? else {
            return Ok(count);
        };
        let pairs = piece.pairs.as_slice();
        assert!(rt; are_next(rt, pairs, count, value), "from key {count} on");
        assert!(rt; pairs.len() < 100_000);
        count = count.saturating_add(pairs.len() as u32);
    }
    Ok(count)
}

/// Works 40 times.
fn work_often<T: Turns<Branch<P::Seal>>, P: Port, G: Pager, L: MergeLaw>(
    desk: &mut Desk<'_, T, P, G, L>,
) -> Result<(), CallFault>
    requires { MayAsk (T.means desk.old.turns) (T.saw desk.old.turns) (T.ready desk.old.turns) (L.rule desk.old.law.now) (L.ready desk.old.law.now) }
    ensures { OnOk result (MayAsk (T.means desk.new.turns) (T.saw desk.new.turns) (T.ready desk.new.turns)
        (L.rule desk.new.law.now) (L.ready desk.new.law.now)) }
{
    'work: for _ in 0..40 {
        work(desk)?;
    }
    Ok(())
}

/// Writes all keys, looks some up, scans all, and works.
fn use_store<T: Turns<Branch<P::Seal>>, P: Port, G: Pager, L: MergeLaw>(
    rt: &impl Abort,
    desk: &mut Desk<'_, T, P, G, L>,
    value: &Value,
) -> Result<(), CallFault>
    requires { MayAsk (T.means desk.old.turns) (T.saw desk.old.turns) (T.ready desk.old.turns) (L.rule desk.old.law.now) (L.ready desk.old.law.now) }
{
    write_all(rt, desk, value)?;
    look_up_some(rt, desk, value)?;
    assert_eq!(rt; scan_all(rt, desk, value)?, 2 * EACH);
    work_often(desk)
}

#[test]
fn reads_only_live_extents(rt: HostRuntime) -> Result<(), Fail> {
    let alloc = rt.alloc();
    let watch = Watch::new(alloc);
    let core = Core::new(alloc, 8192, 1, Newest)?;
    let mut port = WatchedPort::new(MemPort::new(alloc), &watch);
    let mut desk = Desk {
        alloc,
        turns: Watched::new(Alone::new(core), &watch),
        port: &mut port,
        pager: &Direct,
        law: &Newest,
    };
    let value = Value::read(alloc, b"1")?;
    use_store(&rt, &mut desk, &value)?;
    assert_eq!(rt; watch.strays(), 0);
    assert!(rt; !watch.take_reads().is_empty());
    Ok(())
}

/// Reads the first page of the branch.
fn read<P: Port>(port: &mut P, branch: &Branch<P::Seal>) -> Result<(), BranchFault> {
    let _leaves = branch.leaves();
    branch.leaf(port, &Direct, 0)?;
    Ok(())
}

/// Reads a branch of the root in a descent, and again after its end.
fn read_late<T: Turns<Branch<P::Seal>>, P: Port>(
    rt: &impl Abort,
    turns: &mut T,
    port: &mut P,
    watch: &Watch,
) -> Result<(), CallFault>
    requires turns { (T.means turns.old).turns < 2 ^ 41 }
    requires ready { T.ready turns.old }
    requires seen { HasSeen (T.saw turns.old) }
    requires free { MayCall (T.means turns.old) }
    ensures called { OnOk result (IsSameCaller (T.means turns.old) (T.means turns.new)) }
    ensures few { OnOk result (MadeFew (T.means turns.old) (T.means turns.new) 0) }
    ensures ready { T.ready turns.new }
    ensures seen { HasSeen (T.saw turns.new) }
{
    let sight = begin(turns, &ALL)?;
    let branches = sight.branches.as_slice();
    assert!(rt; !branches.is_empty());
    read(port, &branches[0]).expect(rt, "a page");
    assert_eq!(rt; watch.strays(), 0);
    end(turns, &sight)?;
    read(port, &branches[0]).expect(rt, "a page");
    assert_eq!(rt; watch.strays(), 1);
    Ok(())
}

/// Reads a branch of the root's first bundle in a merge, and again after that was given up.
fn read_given_up<T: Turns<Branch<P::Seal>>, P: Port>(
    rt: &impl Abort,
    turns: &mut T,
    port: &mut P,
    watch: &Watch,
)
    requires turns { (T.means turns.old).turns < 2 ^ 40 + 100 }
    requires ready { T.ready turns.old }
    requires seen { HasSeen (T.saw turns.old) }
{
    let _ = turns.actor();
    let first = Step::Start {
        node: 0,
        first: 0,
        last: 0,
    };
    match take_turn(turns, first) {
        Reply::Ticket(ticket) => {
            let inputs = ticket.inputs.as_slice();
            assert!(rt; !inputs.is_empty());
            read(port, &inputs[0]).expect(rt, "a page");
            assert_eq!(rt; watch.strays(), 1);
            abandon(turns);
            read(port, &inputs[0]).expect(rt, "a page");
            assert_eq!(rt; watch.strays(), 2);
        }
        _ => assert!(rt; false, "no ticket"),
    }
}

/// Fills memtables until one is packed, and reads its branch too late.
fn use_late<T: Turns<Branch<P::Seal>>, P: Port, G: Pager, L: MergeLaw>(
    rt: &impl Abort,
    desk: &mut Desk<'_, T, P, G, L>,
    value: &Value,
    watch: &Watch,
) -> Result<(), CallFault>
    requires { MayAsk (T.means desk.old.turns) (T.saw desk.old.turns) (T.ready desk.old.turns) (L.rule desk.old.law.now) (L.ready desk.old.law.now) }
{
    insert_some(rt, desk, value, 6_000)?;
    read_late(rt, &mut desk.turns, desk.port, watch)?;
    read_given_up(rt, &mut desk.turns, desk.port, watch);
    Ok(())
}

#[test]
fn a_read_of_what_is_held_no_longer_is_noted(rt: HostRuntime) -> Result<(), Fail> {
    let alloc = rt.alloc();
    let watch = Watch::new(alloc);
    let core = Core::new(alloc, 64, 1, Newest)?;
    let mut port = WatchedPort::new(MemPort::new(alloc), &watch);
    let mut desk = Desk {
        alloc,
        turns: Watched::new(Alone::new(core), &watch),
        port: &mut port,
        pager: &Direct,
        law: &Newest,
    };
    let value = Value::read(alloc, b"1")?;
    use_late(&rt, &mut desk, &value, &watch)?;
    Ok(())
}
