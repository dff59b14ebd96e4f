//! Scans of a store of one caller, and which pages of the device they read.
//!
//! | words   | what it does                                                             |
//! | none    | checks what scans give, and which pages each piece of one reads          |
//! | `times` | prints how long scans take, and how many pages they read, for each store |
//!
//! A piece goes once down each branch that it meets, and from there along the branch's leaf pages. So each page is
//! needed once, and as many leaf pages of a branch as its entries of the span lie in: two for 100 short keys.
#![tactic(auto)]

mod check;
mod measure;
mod numbered;
mod outcome;
mod scans;
mod store;

use anyhow::Result;
use std::env;
use std::rt::Env;

const USAGE: &str = "usage: spl_scan_bench [times]";

/// What the program is to do.
#[derive(Clone, Copy, Debug, PartialEq, Eq)]
enum Mode {
    Check,
    Times,
    Usage,
}

/// What the words ask for.
fn asked<R: Env + AllocGlobal>(rt: &R) -> Result<Mode> {
    let mut words = env::args(rt)?.skip(1);
    let Some(word) = words.next() else {
        return Ok(Mode::Check);
    };
    match word.as_str() {
        "times" => Ok(Mode::Times),
        _ => Ok(Mode::Usage),
    }
}

fn main(rt: HostRuntime) -> Result<()> {
    match asked(&rt)? {
        Mode::Check => check::check(&rt),
        Mode::Times => measure::measure(&rt),
        Mode::Usage => {
            println!(rt; "{USAGE}")?;
            Ok(())
        }
    }
}
