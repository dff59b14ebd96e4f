//! How long puts and lookups take while the tree grows, and how many pages are written.
ghost use Rattle.std.specs.Prelude.{◌≡◌};
ghost use Rattle.spl_drive.specs.Going.{MayGoOn};

use crate::calls::{insert, lookup};
use crate::order::{Order, key_of};
use crate::store::empty_store;
use anyhow::{Result, bail};
use spl_branch::Branch;
use spl_cache::Cache;
use spl_desk::{CallFault, Desk, Turns};
use spl_message::{MergeLaw, Newest, Value};
use spl_pager::Pager;
use spl_port::{MemPort, Port};
use spl_session::Session;
use std::rt::Clock;
use std::time::Instant;

/// As many sets of the page cache as the program has.
const SETS: u32 = 64;

/// Puts so many keys in this order. Answers how many were put.
fn fill<T: Turns<Branch<P::Seal>>, P: Port, G: Pager, L: MergeLaw>(
    session: &mut Session<'_, T, P, G, L>,
    order: Order,
    count: u32,
    value: &Value,
) -> Result<u32, CallFault>
    requires { MayGoOn (T.means session.old.desk.turns) (T.saw session.old.desk.turns) (T.ready session.old.desk.turns)
        (L.rule session.old.desk.law.now) (L.ready session.old.desk.law.now) }
    ensures { MayGoOn (T.means session.new.desk.turns) (T.saw session.new.desk.turns) (T.ready session.new.desk.turns)
        (L.rule session.new.desk.law.now) (L.ready session.new.desk.law.now) }
{
    for place in 0..count {
        let Some(key) = key_of(order.number_at(place)) else {
            return Ok(place);
        };
        insert(session, &key, value)?;
    }
    Ok(count)
}

/// Looks so many keys up in this order. Answers how many have a value.
fn look_up<T: Turns<Branch<P::Seal>>, P: Port, G: Pager, L: MergeLaw>(
    session: &mut Session<'_, T, P, G, L>,
    order: Order,
    count: u32,
) -> Result<u32, CallFault>
    requires { MayGoOn (T.means session.old.desk.turns) (T.saw session.old.desk.turns) (T.ready session.old.desk.turns)
        (L.rule session.old.desk.law.now) (L.ready session.old.desk.law.now) }
{
    let mut found = 0u32;
    for place in 0..count {
        let Some(key) = key_of(order.number_at(place)) else {
            return Ok(found);
        };
        if lookup(session, &key)?.is_some() {
            found = found.saturating_add(1);
        }
    }
    Ok(found)
}

/// Prints how many nanoseconds each of so many rounds took.
fn tell<R: Clock + Print>(
    rt: &R,
    what: &str,
    start: &Instant,
    rounds: u32,
    count: u32,
) -> Result<()> {
    let took = start.elapsed(rt)?.as_nanos();
    let each = took / u128::from(rounds.max(1));
    println!(rt; "{what}: {each} ns ({count})")?;
    Ok(())
}

/// Ends the desk, and hands its turns out.
fn leave<T: Turns<Branch<P::Seal>>, P: Port, G: Pager, L: MergeLaw>(
    desk: Desk<'_, T, P, G, L>,
) -> T {
    let Desk { turns, .. } = desk;
    turns
}

/// Measures so many keys that come in this order.
pub(crate) fn measure<R: Clock + Print + AllocGlobal>(
    rt: &R,
    order: Order,
    count: u32,
) -> Result<()> {
    let alloc = rt.alloc();
    let value = Value::read(alloc, b"11")?;
    let cache = Cache::new(alloc, SETS)?;
    let mut port = MemPort::new(alloc);
    let mut session = Session {
        desk: Desk {
            alloc,
            turns: empty_store(alloc)?,
            port: &mut port,
            pager: &cache,
            law: &Newest,
        },
    };
    let start = Instant::now(rt)?;
    let put = fill(&mut session, order, count, &value)?;
    tell(rt, "put a key", &start, count, put)?;
    let start = Instant::now(rt)?;
    let found = look_up(&mut session, order, count)?;
    tell(rt, "look a key up", &start, count, found)?;
    let Session { desk } = session;
    let leaves = leave(desk).core().leaves();
    let written = port.writes();
    println!(rt; "pages written: {written}; leaves: {leaves}")?;
    Ok(())
}
