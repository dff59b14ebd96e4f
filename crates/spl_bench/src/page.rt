//! One leaf page: its check, searches, and entries passed on.
ghost use Rattle.std.specs.Prelude.{◌≤◌};

use crate::timed::Timed;
use anyhow::Result;
use spl_message::{Key, NoMemory};
use spl_page::{AnyPage, LeafForm, SoundPage};
use spl_port::{At, PageBytes};
use std::alloc::Global;
use std::rt::Clock;

const AT: At = At {
    extent: 0,
    branch: 7,
    page: 1,
    leaf: true,
};

const ROUNDS: u32 = 2000;

/// A leaf page of so many entries of ten bytes: keys of four bytes, and values of two.
fn page(alloc: Global, count: u16) -> Result<PageBytes, NoMemory> {
    let mut bytes = Vec::with_capacity(alloc, 4096)?;
    bytes.extend_from_slice(b"L\x01")?;
    bytes.extend_from_slice(&count.to_be_bytes())?;
    bytes.extend_from_slice(b"\x00\x00\x00\x01\x00\x00\x00\x00\x00\x00\x00\x07")?;
    for n in 0..count {
        bytes.extend_from_slice(b"\x04\x00\x00\x02")?;
        bytes.extend_from_slice(&(u32::from(n) * 2).to_be_bytes())?;
        bytes.extend_from_slice(b"11")?;
    }
    bytes.resize(4096, 0)?;
    Ok(PageBytes::from_vec(bytes))
}

/// The keys of a page of so many entries, and as many that lie between them, in no order.
fn keys(alloc: Global, count: u16) -> Result<Vec<Key>, NoMemory> {
    let mut keys = Vec::with_capacity(alloc, 2 * count as usize)?;
    for n in 0..2 * u32::from(count) {
        let number = n.wrapping_mul(389) % (2 * u32::from(count) + 1);
        if let Ok(key) = Key::read(&number.to_be_bytes()) {
            keys.push(key)?;
        }
    }
    Ok(keys)
}

fn checks(alloc: Global, bytes: &PageBytes) -> u64 {
    let mut sound = 0u64;
    for _ in 0..ROUNDS {
        let copy = PageBytes::copy(alloc, bytes.bytes());
        if let Ok(copy) = copy
            && AnyPage::check(alloc, copy, AT).is_ok()
        {
            sound = sound.wrapping_add(1);
        }
    }
    sound
}

fn finds(page: &SoundPage<LeafForm>, keys: &[Key]) -> u64 {
    let mut found = 0u64;
    for _ in 0..ROUNDS {
        for key in keys {
            if page.find(key).is_some() {
                found = found.wrapping_add(1);
            }
        }
    }
    found
}

fn passes(page: &SoundPage<LeafForm>) -> u64 {
    let mut bytes = 0u64;
    for _ in 0..ROUNDS {
        for place in 0..page.len() {
            if let Some(entry) = page.entry(place) {
                bytes = bytes.wrapping_add(entry.key.len() as u64);
            }
        }
    }
    bytes
}

/// Times a page of so many entries.
pub fn measure<R: Clock + Print + AllocGlobal>(rt: &R, count: u16) -> Result<()>
    requires { count ≤ 408 }
{
    let alloc = rt.alloc();
    let bytes = page(alloc, count)?;
    let keys = keys(alloc, count)?;
    let rounds = u64::from(ROUNDS);
    let timed = Timed::start(rt)?;
    let sound = checks(alloc, &bytes);
    timed.tell(rt, "copy and check a page", rounds, sound)?;
    let AnyPage::Leaf(page) = AnyPage::check(alloc, bytes, AT)? else {
        return Ok(());
    };
    let timed = Timed::start(rt)?;
    let found = finds(&page, keys.as_slice());
    timed.tell(
        rt,
        "find a key",
        rounds.saturating_mul(keys.len() as u64),
        found,
    )?;
    let timed = Timed::start(rt)?;
    let passed = passes(&page);
    timed.tell(
        rt,
        "pass an entry on",
        rounds.saturating_mul(u64::from(count)),
        passed,
    )?;
    Ok(())
}
