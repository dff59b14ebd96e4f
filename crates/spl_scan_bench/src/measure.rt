//! How long scans take, and how many pages they read.
ghost use Rattle.std.specs.Prelude.{OnOk};
ghost use Rattle.spl_session.specs.Calling.{MayAsk};

use crate::check::SHORT;
use crate::numbered::Range;
use crate::scans::{ALL, count_pairs, fill};
use crate::store::empty_store;
use anyhow::Result;
use spl_branch::Branch;
use spl_cache::Cache;
use spl_desk::{Desk, Turns};
use spl_live::{Watch, WatchedPort};
use spl_message::{MergeLaw, Newest};
use spl_pager::{Direct, Pager};
use spl_port::{MemPort, Port};
use std::rt::Clock;
use std::time::Instant;

/// As many sets of the page cache as the program has.
const SETS: u32 = 64;

/// How many short scans are made.
const ROUNDS: u32 = 1_000;

/// Scans so many keys at places all over the store. Answers how many pairs that gave.
fn scan_short<T: Turns<Branch<P::Seal>>, P: Port, G: Pager, L: MergeLaw>(
    desk: &mut Desk<'_, T, P, G, L>,
    count: u32,
) -> Result<u64>
    requires { MayAsk (T.means desk.old.turns) (T.saw desk.old.turns) (T.ready desk.old.turns) (L.rule desk.old.law.now) (L.ready desk.old.law.now) }
    ensures { OnOk result (MayAsk (T.means desk.new.turns) (T.saw desk.new.turns) (T.ready desk.new.turns)
        (L.rule desk.new.law.now) (L.ready desk.new.law.now)) }
{
    let mut pairs = 0u64;
    for place in 0..ROUNDS {
        let range = Range::spread(SHORT, place, ROUNDS, count);
        pairs = pairs.saturating_add(count_pairs(desk, range.span()?)?);
    }
    Ok(pairs)
}

/// Prints the nanoseconds that so many scans took since the start, with the pages that they read, a scan and a key.
fn tell<R: Clock + Print>(
    rt: &R,
    what: &str,
    start: &Instant,
    rounds: u32,
    pairs: u64,
    watch: &Watch,
) -> Result<()> {
    let took = start.elapsed(rt)?.as_nanos();
    let scan = took / u128::from(rounds.max(1));
    let key = took / u128::from(pairs.max(1));
    let pages = watch.take_reads().len() as u64;
    println!(rt;
        "{what}: {scan} ns a scan, {key} ns a key; {pages} pages in {rounds} scans ({pairs} pairs)"
    )?;
    Ok(())
}

/// Fills the store with so many keys, and measures scans of it.
fn measure_desk<R: Clock + Print, T: Turns<Branch<P::Seal>>, P: Port, G: Pager, L: MergeLaw>(
    rt: &R,
    desk: &mut Desk<'_, T, P, G, L>,
    watch: &Watch,
    count: u32,
) -> Result<()>
    requires { MayAsk (T.means desk.old.turns) (T.saw desk.old.turns) (T.ready desk.old.turns) (L.rule desk.old.law.now) (L.ready desk.old.law.now) }
{
    fill(desk, count)?;
    let _ = watch.take_reads();
    let start = Instant::now(rt)?;
    let pairs = scan_short(desk, count)?;
    tell(rt, "  100 keys", &start, ROUNDS, pairs, watch)?;
    let start = Instant::now(rt)?;
    let pairs = count_pairs(desk, ALL)?;
    tell(rt, "  all keys", &start, 1, pairs, watch)
}

/// Measures scans of a store of so many keys whose pages come by this pager.
fn measure_store<R: Clock + Print + AllocGlobal, G: Pager>(
    rt: &R,
    pager: &G,
    count: u32,
) -> Result<()> {
    let alloc = rt.alloc();
    let watch = Watch::new(alloc);
    let mut port = WatchedPort::new(MemPort::new(alloc), &watch);
    let mut desk = Desk {
        alloc,
        turns: empty_store(alloc)?,
        port: &mut port,
        pager,
        law: &Newest,
    };
    measure_desk(rt, &mut desk, &watch, count)
}

/// Measures scans of stores of several sizes, each without a cache and with one.
pub(crate) fn measure<R: Clock + Print + AllocGlobal>(rt: &R) -> Result<()> {
    for count in [25_000u32, 50_000, 100_000] {
        println!(rt; "{count} keys, each page from the device:")?;
        measure_store(rt, &Direct, count)?;
        println!(rt; "{count} keys, with a cache of {SETS} sets:")?;
        let cache = Cache::new(rt.alloc(), SETS)?;
        measure_store(rt, &cache, count)?;
    }
    Ok(())
}
