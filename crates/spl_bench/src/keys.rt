//! Keys in a memtable and in a filter.
use crate::timed::Timed;
use anyhow::{Result, ensure};
use spl_memtable::Memtable;
use spl_message::{Key, Message, Newest, NoMemory, Value};
use spl_quotient::Filter;
use std::alloc::Global;
use std::rt::Clock;

const ROUNDS: u32 = 100;

/// At most so many keys are taken.
const MOST: usize = 1_000_000;

/// Keys in no order: the numbers' four bytes behind eight that all share, or alone.
fn keys(alloc: Global, count: u32, shared: bool) -> Result<Vec<Key>, NoMemory> {
    let mut keys = Vec::with_capacity(alloc, count as usize)?;
    for n in 0..count {
        let number = n.wrapping_mul(389) % count.max(1);
        let mut bytes = [b'k'; 12];
        let last = &mut bytes[8..];
        last.copy_from_slice(&number.to_be_bytes());
        let used = if shared { &bytes[..] } else { &bytes[8..] };
        if let Ok(key) = Key::read(used) {
            keys.push(key)?;
        }
    }
    Ok(keys)
}

/// Puts the keys into a new memtable, so many times. Returns how many keys the last one has.
fn puts(alloc: Global, keys: &[Key]) -> Result<u64> {
    let mut held = 0;
    for _ in 0..ROUNDS {
        let mut memtable = Memtable::new(alloc);
        for key in keys {
            let message = Message::Insert(Value::read(alloc, b"11")?);
            memtable.put(&Newest, key, message)?;
        }
        held = u64::from(memtable.keys());
    }
    Ok(held)
}

fn admitted(filter: &Filter, keys: &[Key]) -> u64 {
    let mut count = 0u64;
    for _ in 0..ROUNDS {
        for key in keys {
            if filter.admits(key) {
                count = count.wrapping_add(1);
            }
        }
    }
    count
}

fn measure_family<R: Clock + Print + AllocGlobal>(rt: &R, count: u32, shared: bool) -> Result<()> {
    let alloc = rt.alloc();
    let keys = keys(alloc, count, shared)?;
    let calls = u64::from(ROUNDS).saturating_mul(u64::from(count));
    let timed = Timed::start(rt)?;
    let held = puts(alloc, keys.as_slice())?;
    timed.tell(rt, "put a new key", calls, held)?;
    let keys = keys.as_slice();
    ensure!(keys.len() <= MOST, "too many keys");
    let filter = Filter::build(alloc, keys)?;
    let timed = Timed::start(rt)?;
    let count = admitted(&filter, keys);
    timed.tell(rt, "ask a filter for a key that it has", calls, count)?;
    Ok(())
}

/// Times so many keys, with a shared front and without one.
pub fn measure<R: Clock + Print + AllocGlobal>(rt: &R, count: u32) -> Result<()> {
    let count = count.min(MOST as u32);
    measure_family(rt, count, false)?;
    measure_family(rt, count, true)
}
