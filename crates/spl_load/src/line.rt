//! The line that tells of a run.
ghost use Rattle.std.specs.Prelude.{◌≡◌, ◌++◌, IfOk, OnOk, count_by, is_some};
ghost use Rattle.spl_load.specs.Line.{figures_of, hex_text, is_found, is_missed, line_text};

use crate::digest::digest_of;
use hex::encode_to_slice;
use spl_message::{Answer, Call, NoMemory};
use spl_report::{Row, push_number};
use std::alloc::Global;

/// The figures of a run.
#[derive(Clone, Copy)]
pub(crate) struct Figures {
    /// How many rows have a place.
    pub(crate) rows: u64,
    /// How many lookups were answered with a value.
    pub(crate) found: u64,
    /// How many lookups were answered without a value.
    pub(crate) none: u64,
    /// The hash of the report.
    pub(crate) digest: u64,
    /// How many pages were written.
    pub(crate) pages: u64,
    /// How many leaves the tree has in the end.
    pub(crate) leaves: u32,
}

/// How many of the rows have a place.
fn count_placed(rows: &[Row]) -> u64
    ensures { result ≡ count_by (λ row. is_some row.place) rows.now }
{
    rows.iter().filter(|row| row.place.is_some()).count() as u64
}

/// Whether the row is that of a lookup that was answered with a value.
fn is_found(row: &Row) -> bool
    ensures { result ≡ is_found row.now }
{
    matches!((&row.call, &row.answer), (Call::Look(_), Answer::Value(_)))
}

/// How many of the rows are those of lookups that were answered with a value.
fn count_found(rows: &[Row]) -> u64
    ensures { result ≡ count_by is_found rows.now }
{
    rows.iter().filter(|row| is_found(row)).count() as u64
}

/// Whether the row is that of a lookup that was answered without a value.
fn is_missed(row: &Row) -> bool
    ensures { result ≡ is_missed row.now }
{
    matches!((&row.call, &row.answer), (Call::Look(_), Answer::Missing))
}

/// How many of the rows are those of lookups that were answered without a value.
fn count_missed(rows: &[Row]) -> u64
    ensures { result ≡ count_by is_missed rows.now }
{
    rows.iter().filter(|row| is_missed(row)).count() as u64
}

/// The figures of a run with these rows, which wrote so many pages and left so many leaves.
pub(crate) fn figures_of(
    alloc: Global,
    rows: &[Row],
    pages: u64,
    leaves: u32,
) -> Result<Figures, NoMemory>
    ensures { IfOk result (λ figures. figures ≡ figures_of rows.now pages leaves) }
{
    let digest = digest_of(alloc, rows)?;
    Ok(Figures {
        rows: count_placed(rows),
        found: count_found(rows),
        none: count_missed(rows),
        digest,
        pages,
        leaves,
    })
}

/// Writes a number in sixteen hexadecimal digits.
fn push_hex(out: &mut Vec<u8>, number: u64) -> Result<(), NoMemory>
    ensures { OnOk result (out.new.items ≡ out.old.items ++ hex_text number) }
{
    let mut digits = [0; 16];
    encode_to_slice(number.to_be_bytes(), &mut digits).unwrap();
    Ok(out.extend_from_slice(&digits)?)
}

/// The line that tells these figures.
pub(crate) fn write_line(alloc: Global, figures: &Figures) -> Result<Vec<u8>, NoMemory>
    ensures { IfOk result (λ text. text.items ≡ line_text figures.now) }
{
    let mut out = Vec::from_slice(alloc, b"rows ")?;
    push_number(&mut out, figures.rows)?;
    out.extend_from_slice(b" found ")?;
    push_number(&mut out, figures.found)?;
    out.extend_from_slice(b" none ")?;
    push_number(&mut out, figures.none)?;
    out.extend_from_slice(b" digest ")?;
    push_hex(&mut out, figures.digest)?;
    out.extend_from_slice(b" pages ")?;
    push_number(&mut out, figures.pages)?;
    out.extend_from_slice(b" leaves ")?;
    push_number(&mut out, u64::from(figures.leaves))?;
    out.push(b'\n')?;
    Ok(out)
}
