ghost use Rattle.std.specs.Prelude.{◌≤◌};

use crate::line::{figures_of, write_line};
use crate::load;
use spl_core::Core;
use spl_message::{Answer, Call, Cause, Key, Message, Newest, Value};
use spl_pager::Direct;
use spl_port::MemPort;
use spl_report::Row;
use std::alloc::Global;
use std::test::Fail;

fn row(place: Option<u64>, call: Call, answer: Answer) -> Row {
    Row {
        place,
        caller: 0,
        call,
        answer,
    }
}

/// A put, a lookup that finds it, one that finds nothing, and one that was stopped.
fn rows(alloc: Global) -> Result<Vec<Row>, Fail> {
    let [k, l] = [Key::read(b"k")?, Key::read(b"l")?];
    let one = Value::read(alloc, b"1")?;
    let put = Call::Put(k, Message::Insert(Value::read(alloc, b"1")?));
    Ok(vec![in alloc;
        row(Some(0), put, Answer::Done),
        row(Some(1), Call::Look(k), Answer::Value(one)),
        row(Some(2), Call::Look(l), Answer::Missing),
        row(None, Call::Look(k), Answer::Stopped(Cause::Memory)),
    ]?)
}

#[test]
fn rows_are_told_in_one_line(rt: HostRuntime) -> Result<(), Fail> {
    let alloc = rt.alloc();
    let rows = rows(alloc)?;
    let text = write_line(alloc, &figures_of(alloc, rows.as_slice(), 5, 2)?)?;
    assert_eq!(rt;
        text.as_slice(),
        b"rows 3 found 1 none 1 digest ee3df12d9a68d014 pages 5 leaves 2\n".as_slice()
    );
    Ok(())
}

/// The status and the line of a seed's script over an empty store, on a device in memory.
fn load_of(alloc: Global, seed: u64, lines: u64) -> Result<(u8, Vec<u8>), Fail>
    requires { lines ≤ 500000 }
{
    let mut port = MemPort::new(alloc);
    let core = Core::new(alloc, 8192, 1, Newest)?;
    let loaded = load(alloc, &mut port, &Direct, core, &Newest, seed, lines)?;
    Ok((loaded.status, loaded.text))
}

const ONE_LINE: &str = "rows 1 found 0 none 0 digest 2202689824f5079f pages 0 leaves 1\n";

const MANY_LINES: &str = "rows 3000 found 6 none 551 digest 729a1cefa30c5b7c pages 0 leaves 1\n";

#[test]
fn a_seed_gives_its_line_each_time(rt: HostRuntime) -> Result<(), Fail> {
    let alloc = rt.alloc();
    for (seed, lines, told) in [
        (0, 1, ONE_LINE),
        (7, 3000, MANY_LINES),
        (7, 3000, MANY_LINES),
    ] {
        let (status, text) = load_of(alloc, seed, lines)?;
        assert_eq!(rt; status, 0);
        assert_eq!(rt; text.as_slice(), told.as_bytes());
    }
    Ok(())
}
