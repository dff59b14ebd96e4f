//! The runs of scripts that are made, and what is expected of them.

use crate::run::{Outcome, outcome_of};
use crate::{pieces, script};
use anyhow::Result;

/// Two updates that are 6,001 lines apart are both counted.
const COUNTER_END: &str = "6002 0 get n =3\n";

/// Three updates that are 6,001 lines apart are joined from the oldest to the newest.
const TAIL_END: &str = "12003 0 get t =abc\n";

/// A deleted key stays away from lookups and scans.
const DELETED_END: &str = "80002 0 get x none\n80003 0 scan x x0 x0 0\n";

/// A load that makes a tree of several leaves.
const LONG_LOAD: &str = "load --seed=7 --lines=200000";

/// Prints whether the run has status 0 and what is expected, or else its status and its last rows.
fn tell(rt: &impl Print, name: &str, outcome: &Outcome, is_expected: bool) -> Result<()> {
    let Outcome { status, text } = outcome;
    if *status == 0 && is_expected {
        println!(rt; "{name}: status 0, as expected")?;
        return Ok(());
    }
    println!(rt; "{name}: DIFFERS, with status {status} and the last rows")?;
    let count = text.lines().count();
    for row in text.lines().skip(count.saturating_sub(2)) {
        println!(rt; "{row}")?;
    }
    Ok(())
}

/// Whether these are the last rows of the report.
fn has_end(report: &str, rows: &str) -> bool {
    match report.strip_suffix(rows) {
        Some(front) => front.ends_with('\n'),
        None => false,
    }
}

/// How many leaves the line of a load tells.
fn leaves_of(line: &str) -> Option<u32> {
    let (_, leaves) = line.trim_end().rsplit_once(" leaves ")?;
    leaves.parse().ok()
}

/// Runs a script whose last rows are known.
fn check_end<R: Print + AllocGlobal>(
    rt: &R,
    name: &str,
    words: &str,
    script: &str,
    end: &str,
) -> Result<()> {
    let outcome = outcome_of(rt.alloc(), words, script)?;
    tell(rt, name, &outcome, has_end(outcome.text.as_str(), end))
}

/// Runs the large script, each row of which is known.
fn check_large<R: Print + AllocGlobal>(rt: &R) -> Result<()> {
    let script = script::large(rt.alloc())?;
    let report = script::large_report(rt.alloc())?;
    let outcome = outcome_of(rt.alloc(), "run", script.as_str())?;
    tell(rt, "large", &outcome, outcome.text == report)
}

/// Runs a scan of many keys.
fn check_pieces<R: Print + AllocGlobal>(rt: &R) -> Result<()> {
    let script = script::scanned(rt.alloc())?;
    let outcome = outcome_of(rt.alloc(), "run", script.as_str())?;
    let is_expected = pieces::are_of_one_scan(rt.alloc(), outcome.text.as_str())?;
    tell(rt, "pieces", &outcome, is_expected)
}

/// Runs a long load twice: its line is the same both times, and tells of more than one leaf.
fn check_load<R: Print + AllocGlobal>(rt: &R) -> Result<()> {
    let first = outcome_of(rt.alloc(), LONG_LOAD, "")?;
    let again = outcome_of(rt.alloc(), LONG_LOAD, "")?;
    let line = again.text.as_str();
    let has_leaves = leaves_of(line).is_some_and(|leaves| leaves > 1);
    let is_expected = first.text == again.text
        && line.starts_with("rows 200000 found ")
        && has_leaves;
    tell(rt, "load", &again, is_expected)
}

/// Runs a load of one put, which writes no page.
fn check_put_load<R: Print + AllocGlobal>(rt: &R) -> Result<()> {
    let outcome = outcome_of(rt.alloc(), "load --seed=0 --lines=1", "")?;
    let line = outcome.text.as_str();
    let is_expected = line.starts_with("rows 1 found 0 none 0 digest ")
        && line.ends_with(" pages 0 leaves 1\n");
    tell(rt, "load_one_put", &outcome, is_expected)
}

/// Runs a load that leaves its seed out: it is 1.
fn check_seed<R: Print + AllocGlobal>(rt: &R) -> Result<()> {
    let left_out = outcome_of(rt.alloc(), "load --lines 5", "")?;
    let given = outcome_of(rt.alloc(), "load --lines 5 --seed=1", "")?;
    tell(rt, "load_seed", &left_out, left_out.text == given.text)
}

/// Makes all runs.
pub(crate) fn check_all<R: Print + AllocGlobal>(rt: &R) -> Result<()> {
    let counter = script::counter(rt.alloc())?;
    check_end(rt, "counter", "run", counter.as_str(), COUNTER_END)?;
    let tail = script::tail(rt.alloc())?;
    check_end(rt, "tail", "run --merge=tail", tail.as_str(), TAIL_END)?;
    let deleted = script::deleted(rt.alloc())?;
    check_end(rt, "deleted", "run", deleted.as_str(), DELETED_END)?;
    check_load(rt)?;
    check_put_load(rt)?;
    check_seed(rt)?;
    check_large(rt)?;
    check_pieces(rt)
}
