ghost use Rattle.std.specs.Prelude.{◌≡◌, IfOk, None, Some, map};
ghost use Rattle.spl_report.specs.Merge.{AreLogs};

use crate::{Row, merge_logs, write_report};
use spl_message::{Answer, Bound, Call, Cause, Key, Message, Pairs, Span, Value};
use std::alloc::Global;
use std::test::Fail;

/// A lookup that found nothing.
fn lookup(place: u64, caller: u32, key: Key) -> Row
    ensures { (result.place ≡ Some place) × (result.caller ≡ caller) }
{
    Row {
        place: Some(place),
        caller,
        call: Call::Look(key),
        answer: Answer::Missing,
    }
}

/// A call of caller 0 that was stopped and has no place.
fn stopped(call: Call, cause: Cause) -> Row
    ensures { (result.place ≡ None) × (result.caller ≡ 0) }
{
    Row {
        place: None,
        caller: 0,
        call,
        answer: Answer::Stopped(cause),
    }
}

#[tactic(auto, using(crate::proofs::Logs::two_logs))]
/// The logs of two callers: caller 1 made the first call, and caller 0 was stopped behind the second.
fn two_logs(alloc: Global) -> Result<Vec<Vec<Row>>, Fail>
    ensures { IfOk result (λ logs. AreLogs (map (λ log. log.items) logs.items)) }
{
    let key = Key::read(b"a")?;
    let first = vec![in alloc; lookup(1, 0, key), stopped(Call::Look(key), Cause::Fault)]?;
    let second = vec![in alloc; lookup(0, 1, key)]?;
    Ok(vec![in alloc; first, second]?)
}

#[test]
fn rows_stand_in_the_order_of_their_places(rt: HostRuntime) -> Result<(), Fail> {
    let alloc = rt.alloc();
    let rows = merge_logs(alloc, two_logs(alloc)?)?;
    let text = write_report(alloc, rows.as_slice())?;
    assert_eq!(rt;
        text.as_slice(),
        b"0 1 get a none\n1 0 get a none\n- 0 get a fault\n".as_slice()
    );
    Ok(())
}

#[test]
fn no_logs_make_an_empty_report(rt: HostRuntime) -> Result<(), Fail> {
    let alloc = rt.alloc();
    let rows = merge_logs(alloc, Vec::new(alloc))?;
    assert!(rt; write_report(alloc, rows.as_slice())?.is_empty());
    Ok(())
}

/// A row of each kind of put, done and stopped.
fn puts(alloc: Global, key: Key) -> Result<Vec<Row>, Fail> {
    let calls = [
        Call::Put(key, Message::Insert(Value::read(alloc, b"\xff~")?)),
        Call::Put(key, Message::Update(Value::read(alloc, b"5")?)),
        Call::Put(key, Message::Delete),
    ];
    let mut rows = Vec::new(alloc);
    for call in calls {
        let again = call.copy()?;
        rows.push(Row {
            place: Some(12),
            caller: 3,
            call,
            answer: Answer::Done,
        })?;
        rows.push(stopped(again, Cause::Memory))?;
    }
    Ok(rows)
}

const TOLD_PUTS: &str = "12 3 put %00%25 =%FF~ ok
- 0 put %00%25 =%FF~ memory
12 3 upd %00%25 =5 ok
- 0 upd %00%25 =5 memory
12 3 del %00%25 ok
- 0 del %00%25 memory
";

#[test]
fn each_put_has_its_row(rt: HostRuntime) -> Result<(), Fail> {
    let alloc = rt.alloc();
    let rows = puts(alloc, Key::read(b"\x00%")?)?;
    let text = write_report(alloc, rows.as_slice())?;
    assert_eq!(rt; text.as_slice(), TOLD_PUTS.as_bytes());
    Ok(())
}

/// A row of each kind of lookup.
fn lookups(alloc: Global, key: Key) -> Result<Vec<Row>, Fail> {
    let found = Row {
        place: Some(0),
        caller: 63,
        call: Call::Look(key),
        answer: Answer::Value(Value::read(alloc, b"")?),
    };
    let begun = Row {
        place: Some(2),
        caller: 5,
        call: Call::Look(key),
        answer: Answer::Stopped(Cause::Damaged),
    };
    Ok(vec![in alloc;
        found,
        lookup(1, 0, key),
        begun,
        stopped(Call::Look(key), Cause::Full),
    ]?)
}

const TOLD_LOOKUPS: &str = "0 63 get %2A =
1 0 get %2A none
2 5 get %2A damaged
- 0 get %2A full
";

#[test]
fn each_lookup_has_its_row(rt: HostRuntime) -> Result<(), Fail> {
    let alloc = rt.alloc();
    let rows = lookups(alloc, Key::read(b"*")?)?;
    let text = write_report(alloc, rows.as_slice())?;
    assert_eq!(rt; text.as_slice(), TOLD_LOOKUPS.as_bytes());
    Ok(())
}

/// A row of each kind of piece: with a pair, with none, and stopped with and without a place.
fn pieces(alloc: Global, key: Key) -> Result<Vec<Row>, Fail> {
    let all = Span {
        from: None,
        to: None,
    };
    let some = Span {
        from: Some(key),
        to: Some(Bound::after(&key)),
    };
    let pair = Row {
        place: Some(0),
        caller: 1,
        call: Call::Piece(some),
        answer: Answer::Pairs {
            end: Some(Bound::after(&key)),
            pairs: Pairs::of(vec![in alloc; (key, Value::read(alloc, b"1")?)]?),
        },
    };
    let none = Row {
        place: Some(1),
        caller: 1,
        call: Call::Piece(all),
        answer: Answer::Pairs {
            end: None,
            pairs: Pairs::of(Vec::new(alloc)),
        },
    };
    let begun = Row {
        place: Some(2),
        caller: 1,
        call: Call::Piece(some),
        answer: Answer::Stopped(Cause::Nodes),
    };
    Ok(vec![in alloc; pair, none, begun, stopped(Call::Piece(all), Cause::Spent)]?)
}

const TOLD_PIECES: &str = "0 1 scan a a%00 a%00 1
+ a =1
1 1 scan * * * 0
2 1 scan a a%00 nodes
- 0 scan * * spent
";

#[test]
fn each_piece_has_its_row_and_a_line_for_each_pair(rt: HostRuntime) -> Result<(), Fail> {
    let alloc = rt.alloc();
    let rows = pieces(alloc, Key::read(b"a")?)?;
    let text = write_report(alloc, rows.as_slice())?;
    assert_eq!(rt; text.as_slice(), TOLD_PIECES.as_bytes());
    Ok(())
}
