//! The scripts of examples/, whose reports are kept in files.

use crate::run::outcome_of;
use anyhow::Result;
use std::fs;
use std::rt::Files;

/// A script in a file, and the status of its run.
#[derive(Clone, Copy, Debug)]
pub(crate) struct Example {
    name: &'static str,
    status: u8,
}

/// The examples, with the statuses that examples/README.md gives.
pub(crate) const EXAMPLES: [Example; 3] = [
    Example {
        name: "name_index",
        status: 0,
    },
    Example {
        name: "page_counters",
        status: 0,
    },
    Example {
        name: "faulty",
        status: 2,
    },
];

/// Runs the script, and prints whether its report is the kept one, byte for byte.
pub(crate) fn check<R: Files + Print + AllocGlobal>(rt: &R, example: Example) -> Result<()> {
    let Example { name, status } = example;
    let script = fs::read_to_string(rt, format!(in rt.alloc(); "{name}.script")?)?;
    let report = fs::read_to_string(rt, format!(in rt.alloc(); "{name}.report")?)?;
    let outcome = outcome_of(rt.alloc(), "run", script.as_str())?;
    if outcome.status == status && outcome.text == report {
        println!(rt; "{name}: status {status}, as kept")?;
    } else {
        let (status, text) = (outcome.status, outcome.text.as_str());
        println!(rt; "{name}: DIFFERS, with status {status} and the text\n{text}")?;
    }
    Ok(())
}
