//! What scans give, and which pages they read. Each page is read from the device: no cache keeps it.
ghost use Rattle.std.specs.Prelude.{OnOk};
ghost use Rattle.spl_session.specs.Calling.{MayAsk};

use crate::numbered::Range;
use crate::outcome::Outcome;
use crate::scans::{ALL, fill, scan};
use crate::store::empty_store;
use anyhow::Result;
use spl_branch::Branch;
use spl_desk::{Desk, Turns};
use spl_live::{Watch, WatchedPort};
use spl_message::{MergeLaw, Newest};
use spl_pager::{Direct, Pager};
use spl_port::{MemPort, Port};
use std::alloc::Global;

/// How many keys a short scan has.
pub(crate) const SHORT: u32 = 100;

/// At how many places of a store a short scan is made.
const PLACES: u32 = 10;

/// How many keys the small store has.
const FEW: u32 = 100_000;

/// How many keys the large store has.
const MANY: u32 = 200_000;

/// The scans of a store.
#[derive(Clone, Copy, Debug)]
struct Scans {
    short: Outcome,
    whole: Outcome,
}

/// Fills the store, and scans it.
fn scans_of<T: Turns<Branch<P::Seal>>, P: Port, G: Pager, L: MergeLaw>(
    desk: &mut Desk<'_, T, P, G, L>,
    watch: &Watch,
    count: u32,
) -> Result<Scans>
    requires { MayAsk (T.means desk.old.turns) (T.saw desk.old.turns) (T.ready desk.old.turns) (L.rule desk.old.law.now) (L.ready desk.old.law.now) }
{
    fill(desk, count)?;
    let mut short = Outcome::new();
    for place in 0..PLACES {
        let range = Range::spread(SHORT, place, PLACES, count);
        scan(desk, watch, range.span()?, range, &mut short)?;
    }
    let mut whole = Outcome::new();
    let all = Range { first: 0, count };
    scan(desk, watch, ALL, all, &mut whole)?;
    Ok(Scans { short, whole })
}

/// The scans of a store of so many keys.
fn scans_among(alloc: Global, count: u32) -> Result<Scans> {
    let watch = Watch::new(alloc);
    let mut port = WatchedPort::new(MemPort::new(alloc), &watch);
    let mut desk = Desk {
        alloc,
        turns: empty_store(alloc)?,
        port: &mut port,
        pager: &Direct,
        law: &Newest,
    };
    scans_of(&mut desk, &watch, count)
}

/// What stands before a sentence that holds, or does not.
fn unless(holds: bool) -> &'static str {
    if holds { "" } else { "NOT " }
}

/// Prints what holds of the scans of a store of so many keys.
fn tell<R: Print>(rt: &R, count: u32, scans: &Scans) -> Result<()> {
    let Scans { short, whole } = *scans;
    println!(rt;
        "{SHORT} keys among {count}: {}as they were put, {}no page twice, {}at most 2 leaf pages and 2 index pages a branch",
        unless(short.as_put),
        unless(short.once),
        unless(short.leaves <= 2 && short.indexes <= 2),
    )?;
    println!(rt;
        "all {count} keys: {}as they were put, {}no page twice",
        unless(whole.as_put),
        unless(whole.once),
    )?;
    Ok(())
}

/// Checks the scans of two stores.
pub(crate) fn check<R: Print + AllocGlobal>(rt: &R) -> Result<()> {
    let few = scans_among(rt.alloc(), FEW)?;
    let many = scans_among(rt.alloc(), MANY)?;
    tell(rt, FEW, &few)?;
    tell(rt, MANY, &many)?;
    let linear = many.whole.reads <= few.whole.reads.saturating_mul(3);
    println!(rt;
        "all {MANY} keys: {}at most 3 times the pages of all {FEW}",
        unless(linear)
    )?;
    Ok(())
}
