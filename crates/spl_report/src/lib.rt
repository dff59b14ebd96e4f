//! The report of a run: a row for each call that was made, and one text for each list of rows.
//!
//! `specs/ReportText.antt` says which text a list of rows has, and writing gives exactly that.
#![tactic(auto)]

mod merge;
mod report;

pub use merge::merge_logs;
pub use report::{Row, one_report, push_number, push_row, write_report};
pub use spl_message::{Answer, Call, Cause, NoMemory};

#[cfg(test)]
mod tests;
