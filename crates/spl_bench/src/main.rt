//! Measures the parts of the store: `spl_bench MODE NUMBER`, where the number is that of the keys.
//!
//! | mode     | what is timed                                                                     |
//! | `page`   | a page of so many entries: its check, a search, an entry passed on                |
//! | `branch` | a branch of so many keys: building it, and lookups that read and check each page  |
//! | `cache`  | lookups whose pages are in a cache                                                |
//! | `shared` | the same by four threads at once                                                  |
//! | `keys`   | puts of new keys into a memtable, and a filter that is asked for keys that it has |
//!
//! Each line is a figure in nanoseconds, with a count that shows that the work was done.
#![tactic(auto)]

mod branch;
mod cached;
mod keys;
mod page;
mod timed;

use anyhow::Result;
use std::env;
use std::rt::Env;

/// What is measured.
#[derive(Clone, Copy, Debug, PartialEq, Eq)]
enum Mode {
    Page,
    Branch,
    Cache,
    Shared,
    Keys,
}

const USAGE: &str = "usage: spl_bench page|branch|cache|shared|keys NUMBER";

fn mode_of(word: &str) -> Option<Mode> {
    match word {
        "page" => Some(Mode::Page),
        "branch" => Some(Mode::Branch),
        "cache" => Some(Mode::Cache),
        "shared" => Some(Mode::Shared),
        "keys" => Some(Mode::Keys),
        _ => None,
    }
}

/// What the words ask for.
fn asked<R: Env + AllocGlobal>(rt: &R) -> Result<Option<(Mode, u32)>> {
    let mut words = env::args(rt)?.skip(1);
    let Some(mode) = words.next() else {
        return Ok(None);
    };
    let Some(number) = words.next() else {
        return Ok(None);
    };
    let Ok(number) = number.as_str().parse::<u32>() else {
        return Ok(None);
    };
    Ok(mode_of(mode.as_str()).map(|mode| (mode, number)))
}

fn main(rt: HostRuntime) -> Result<()> {
    match asked(&rt)? {
        Some((Mode::Page, number)) => page::measure(&rt, number.min(408) as u16),
        Some((Mode::Branch, number)) => branch::measure(&rt, number),
        Some((Mode::Cache, number)) => cached::measure(&rt, number),
        Some((Mode::Shared, number)) => cached::measure_shared(&rt, number),
        Some((Mode::Keys, number)) => keys::measure(&rt, number),
        None => {
            println!(rt; "{USAGE}")?;
            Ok(())
        }
    }
}
