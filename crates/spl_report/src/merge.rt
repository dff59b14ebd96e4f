//! One list of rows from the logs of all callers.
ghost use Rattle.std.specs.Prelude.{◌≡◌, ℕ, List, IfOk, map};
ghost use Rattle.std.specs.List.Sorted.{IsPermutation};
ghost use Rattle.std.specs.Ordering.{is_lt};
ghost use Rattle.spl_report.specs.Merge.{ArePlaced, AreLogs, IsInOrder, IsOrdered, log_of, rows_in, rows_of, stands_before};

use crate::report::Row;
use spl_message::NoMemory;
use std::alloc::Global;
use std::cmp::Ordering;

/// Which of two rows stands first in a report.
fn in_report(row: &Row, other: &Row) -> Ordering
    ensures { is_lt result ≡ stands_before row.now other.now }
{
    match (row.place, other.place) {
        (Some(place), Some(later)) => place.cmp(&later),
        (Some(_), None) => Ordering::Less,
        (None, Some(_)) => Ordering::Greater,
        (None, None) => row.caller.cmp(&other.caller),
    }
}

/// The rows of all logs, one log behind the other.
fn join_logs(alloc: Global, logs: Vec<Vec<Row>>) -> Result<Vec<Row>, NoMemory>
    ensures { IfOk result (λ rows. rows.items ≡ rows_in (map (λ log. log.items) logs.items)) }
{
    let mut rows = Vec::new(alloc);
    for mut log in logs {
        rows.append(&mut log)?;
    }
    Ok(rows)
}

/// The rows of all callers' logs in the order of a report: those that have a place, in the order of their places, and
/// behind them those that have none, in the order of their callers.
///
/// The logs stand one behind the other before they are sorted, and the sort finds what is in order already. So the time
/// is that of a merge of so many lists.
pub fn merge_logs(alloc: Global, logs: Vec<Vec<Row>>) -> Result<Vec<Row>, NoMemory>
    requires { AreLogs (map (λ log. log.items) logs.items) }
    ensures all { IfOk result (λ rows. IsPermutation (rows_in (map (λ log. log.items) logs.items)) rows.items) }
    ensures order { IfOk result (λ rows. IsOrdered rows.items) }
    ensures placed { IfOk result (λ rows. (placed : ℕ) → ArePlaced placed (rows_in (map (λ log. log.items) logs.items)) → IsInOrder placed rows.items) }
    ensures logs { IfOk result (λ rows. (caller : ℕ) → rows_of caller rows.items ≡ log_of caller (map (λ log. log.items) logs.items)) }
{
    let mut rows = join_logs(alloc, logs)?;
    rows.sort_by(|row, other| in_report(row, other))?;
    Ok(rows)
}
