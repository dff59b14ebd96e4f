//! Lookups in a branch whose pages are in a cache, by one thread and by four.
use crate::branch::{LOOKUPS, built, lookups};
use crate::timed::Timed;
use anyhow::Result;
use spl_branch::Branch;
use spl_cache::Cache;
use spl_port::{MemPort, MemSeal};
use std::alloc::Global;
use std::rt::Clock;
use std::thread::{Threads, join};

/// Space for the pages of some 3 million keys.
const SETS: u32 = 1024;

/// Times lookups among so many keys, whose pages are in a cache.
pub fn measure<R: Clock + Print + AllocGlobal>(rt: &R, count: u32) -> Result<()> {
    let alloc = rt.alloc();
    let mut port = MemPort::new(alloc);
    let branch = built(rt, &mut port, count)?;
    let cache = Cache::new(alloc, SETS)?;
    let warm = lookups(&branch, &mut port, &cache, count);
    let before = port.reads();
    let timed = Timed::start(rt)?;
    let found = lookups(&branch, &mut port, &cache, count);
    timed.tell(
        rt,
        "look a key up, from the cache",
        u64::from(LOOKUPS),
        found,
    )?;
    let reads = port.reads().saturating_sub(before);
    println!(rt; "pages read meanwhile: {reads} ({warm})")?;
    Ok(())
}

/// Lookups by a port of this thread's own, and how many pages it read.
fn alone(alloc: Global, branch: &Branch<MemSeal>, cache: &Cache, count: u32) -> (u64, u64) {
    let mut port = MemPort::new(alloc);
    let found = lookups(branch, &mut port, cache, count);
    (found, port.reads())
}

/// Times four threads that look keys up at the same time.
pub fn measure_shared<R: Clock + Print + AllocGlobal + Threads + Sync>(
    rt: &R,
    count: u32,
) -> Result<()> {
    let alloc = rt.alloc();
    let mut port = MemPort::new(alloc);
    let branch = built(rt, &mut port, count)?;
    let cache = Cache::new(alloc, SETS)?;
    let warm = lookups(&branch, &mut port, &cache, count);
    let timed = Timed::start(rt)?;
    let two = || {
        join(
            rt,
            || alone(alloc, &branch, &cache, count),
            || alone(alloc, &branch, &cache, count),
        )
    };
    let (first, second) = join(rt, two, two);
    timed.tell(
        rt,
        "look a key up, four threads at once",
        u64::from(LOOKUPS),
        warm,
    )?;
    let reads = (first.0.1, first.1.1, second.0.1, second.1.1);
    println!(rt; "pages read by each: {reads:?}")?;
    Ok(())
}
