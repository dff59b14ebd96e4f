ghost use Rattle.std.specs.Prelude.{◌≡◌, ◌+◌, ◌<◌, ◌^◌};
ghost use Rattle.spl_message.specs.Rule.{newest};
ghost use Rattle.spl_desk.specs.Calls.{HasSeen, MayCall};

use crate::{Piece, Pieces};
use spl_alone::Alone;
use spl_branch::Branch;
use spl_core::{Core, Step};
use spl_desk::{Desk, Turns, take_turn};
use spl_down::abandon;
use spl_message::{Bound, Key, Message, Newest, Span, Value};
use spl_pager::Direct;
use spl_port::{MemPort, MemSeal};
use std::alloc::Global;
use std::process::Abort;
use std::test::Fail;

/// The span of all keys.
fn all() -> Span {
    Span {
        from: None,
        to: None,
    }
}

/// The key of these bytes.
fn key_of(rt: &impl Abort, bytes: &[u8]) -> Key {
    Key::read(bytes).expect(rt, "a key")
}

/// Puts the message to the key, in a turn of its own.
fn put<T: Turns<Branch<MemSeal>>>(turns: &mut T, key: Key, message: Message)
    requires turns { (T.means turns.old).turns < 2 ^ 40 }
    requires ready { T.ready turns.old }
    requires seen { HasSeen (T.saw turns.old) }
    ensures rule { (T.means turns.new).rule ≡ (T.means turns.old).rule }
    ensures turns { (T.means turns.new).turns ≡ (T.means turns.old).turns + 2 }
    ensures ready { T.ready turns.new }
    ensures seen { HasSeen (T.saw turns.new) }
    ensures nothing { MayCall (T.means turns.new) }
{
    let _ = turns.actor();
    let _ = take_turn(turns, Step::Put { key, message });
    abandon(turns);
}

/// Inserts three keys and deletes the middle one.
fn fill<T: Turns<Branch<MemSeal>>>(rt: &impl Abort, alloc: Global, turns: &mut T)
    requires turns { (T.means turns.old).turns < 2 ^ 39 }
    requires ready { T.ready turns.old }
    requires seen { HasSeen (T.saw turns.old) }
    ensures rule { (T.means turns.new).rule ≡ (T.means turns.old).rule }
    ensures turns { (T.means turns.new).turns ≡ (T.means turns.old).turns + 8 }
    ensures ready { T.ready turns.new }
    ensures seen { HasSeen (T.saw turns.new) }
    ensures nothing { MayCall (T.means turns.new) }
{
    let one = Value::read(alloc, b"1").expect(rt, "a value");
    let two = Value::read(alloc, b"2").expect(rt, "a value");
    let three = Value::read(alloc, b"3").expect(rt, "a value");
    put(turns, key_of(rt, b"c"), Message::Insert(three));
    put(turns, key_of(rt, b"a"), Message::Insert(one));
    put(turns, key_of(rt, b"b"), Message::Insert(two));
    put(turns, key_of(rt, b"b"), Message::Delete);
}

/// The piece of the span, which is the only one.
fn only_piece<T: Turns<Branch<MemSeal>>>(
    rt: &impl Abort,
    desk: &mut Desk<'_, T, MemPort, Direct, Newest>,
    span: Span,
) -> Piece
    requires turns { (T.means desk.old.turns).turns < 2 ^ 40 }
    requires ready { T.ready desk.old.turns }
    requires nothing { MayCall (T.means desk.old.turns) }
    requires seen { HasSeen (T.saw desk.old.turns) }
    requires rule { (T.means desk.old.turns).rule ≡ newest }
{
    let mut pieces = Pieces::new(span);
    let piece = pieces.next(desk).expect(rt, "no error");
    let end = pieces.next(desk).expect(rt, "no error");
    assert!(rt; end.is_none());
    piece.expect(rt, "a piece")
}

/// The places of two pieces, one after the other.
fn places<T: Turns<Branch<MemSeal>>>(
    rt: &impl Abort,
    desk: &mut Desk<'_, T, MemPort, Direct, Newest>,
) -> (u64, u64)
    requires turns { (T.means desk.old.turns).turns < 2 ^ 40 }
    requires ready { T.ready desk.old.turns }
    requires nothing { MayCall (T.means desk.old.turns) }
    requires seen { HasSeen (T.saw desk.old.turns) }
    requires rule { (T.means desk.old.turns).rule ≡ newest }
    ensures { result.0 < result.1 }
{
    let mut first = Pieces::new(all());
    let mut second = Pieces::new(all());
    let one = first
        .next(desk)
        .expect(rt, "no error")
        .expect(rt, "a piece");
    let two = second
        .next(desk)
        .expect(rt, "no error")
        .expect(rt, "a piece");
    (one.place, two.place)
}

/// Scans all keys of a store that had none, after three inserts and a delete.
fn scan_all<T: Turns<Branch<MemSeal>>>(
    rt: &impl Abort,
    desk: &mut Desk<'_, T, MemPort, Direct, Newest>,
)
    requires turns { (T.means desk.old.turns).turns < 2 ^ 39 }
    requires ready { T.ready desk.old.turns }
    requires seen { HasSeen (T.saw desk.old.turns) }
    requires rule { (T.means desk.old.turns).rule ≡ newest }
{
    fill(rt, desk.alloc, &mut desk.turns);
    let piece = only_piece(rt, desk, all());
    let pairs = piece.pairs.as_slice();
    assert_eq!(rt; piece.place, 4);
    assert_eq!(rt; pairs.len(), 2);
    assert!(rt; pairs[0].0 == key_of(rt, b"a") && pairs[1].0 == key_of(rt, b"c"));
}

/// Scans from a key that has a value, up to that key.
fn scan_nothing<T: Turns<Branch<MemSeal>>>(
    rt: &impl Abort,
    desk: &mut Desk<'_, T, MemPort, Direct, Newest>,
)
    requires turns { (T.means desk.old.turns).turns < 2 ^ 39 }
    requires ready { T.ready desk.old.turns }
    requires seen { HasSeen (T.saw desk.old.turns) }
    requires rule { (T.means desk.old.turns).rule ≡ newest }
{
    fill(rt, desk.alloc, &mut desk.turns);
    let key = key_of(rt, b"a");
    let none = Span {
        from: Some(key),
        to: Some(Bound::of(&key)),
    };
    let piece = only_piece(rt, desk, none);
    assert!(rt; piece.pairs.as_slice().is_empty());
}

/// Scans all keys twice.
fn scan_twice<T: Turns<Branch<MemSeal>>>(
    rt: &impl Abort,
    desk: &mut Desk<'_, T, MemPort, Direct, Newest>,
)
    requires turns { (T.means desk.old.turns).turns < 2 ^ 39 }
    requires ready { T.ready desk.old.turns }
    requires seen { HasSeen (T.saw desk.old.turns) }
    requires rule { (T.means desk.old.turns).rule ≡ newest }
{
    fill(rt, desk.alloc, &mut desk.turns);
    assert_eq!(rt; places(rt, desk), (4, 5));
}

#[test]
fn a_scan_gives_the_keys_that_have_a_value(rt: HostRuntime) -> Result<(), Fail> {
    let alloc = rt.alloc();
    let core = Core::new(alloc, 8, 1, Newest)?;
    let mut port = MemPort::new(alloc);
    let mut desk = Desk {
        alloc,
        turns: Alone::new(core),
        port: &mut port,
        pager: &Direct,
        law: &Newest,
    };
    scan_all(&rt, &mut desk);
    Ok(())
}

#[test]
fn an_empty_span_has_one_piece_without_pairs(rt: HostRuntime) -> Result<(), Fail> {
    let alloc = rt.alloc();
    let core = Core::new(alloc, 8, 1, Newest)?;
    let mut port = MemPort::new(alloc);
    let mut desk = Desk {
        alloc,
        turns: Alone::new(core),
        port: &mut port,
        pager: &Direct,
        law: &Newest,
    };
    scan_nothing(&rt, &mut desk);
    Ok(())
}

#[test]
fn places_of_pieces_rise(rt: HostRuntime) -> Result<(), Fail> {
    let alloc = rt.alloc();
    let core = Core::new(alloc, 8, 1, Newest)?;
    let mut port = MemPort::new(alloc);
    let mut desk = Desk {
        alloc,
        turns: Alone::new(core),
        port: &mut port,
        pager: &Direct,
        law: &Newest,
    };
    scan_twice(&rt, &mut desk);
    Ok(())
}
