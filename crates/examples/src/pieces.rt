//! The rows of a scan of all keys, taken apart.

use crate::script::SCANNED;
use std::alloc::{AllocError, Global};

/// The first line of a piece, which says where the piece starts and ends, and how many pairs follow.
#[derive(Clone, Copy, Debug)]
struct Head<'a> {
    place: u32,
    start: &'a str,
    scan_end: &'a str,
    end: &'a str,
    pairs: u32,
}

/// Reads a line `P 0 scan A B E N`.
fn read_head(line: &str) -> Option<Head<'_>> {
    let mut fields = line.split(' ');
    let place = fields.next()?.parse().ok()?;
    if fields.next()? != "0" || fields.next()? != "scan" {
        return None;
    }
    let head = Head {
        place,
        start: fields.next()?,
        scan_end: fields.next()?,
        end: fields.next()?,
        pairs: fields.next()?.parse().ok()?,
    };
    match fields.next() {
        None => Some(head),
        Some(_) => None,
    }
}

impl Head<'_> {
    /// Whether the piece has this place, and starts at this end of the one before. Only the first starts at `*`.
    fn follows(&self, place: u32, end: &str) -> bool {
        self.place == place
            && self.start == end
            && self.scan_end == "*"
            && (self.start == "*") == (place == SCANNED)
    }

    /// Whether the key lies in the piece.
    fn has(&self, key: &str) -> bool {
        (self.start == "*" || self.start <= key) && (self.end == "*" || key < self.end)
    }

    /// Whether the row is the pair of this key, which lies in the piece.
    fn is_pair(&self, alloc: Global, number: u32, row: Option<&str>) -> Result<bool, AllocError> {
        let key = format!(in alloc; "p{number:05}")?;
        let pair = format!(in alloc; "+ {key} =v{number}")?;
        Ok(self.has(key.as_str()) && row == Some(pair.as_str()))
    }
}

/// Whether the rows behind those of the puts are the pieces of one scan, more than one: each starts where the one before
/// ended, the last one ends at `*`, and their pairs are all that were put, in the order of their keys.
pub(crate) fn are_of_one_scan(alloc: Global, report: &str) -> Result<bool, AllocError> {
    let mut rows = report.lines().skip(SCANNED as usize);
    let mut end = "*";
    let mut number = 0;
    for place in SCANNED..u32::MAX {
        let Some(row) = rows.next() else {
            return Ok(end == "*" && number == SCANNED && place > SCANNED + 1);
        };
        let Some(head) = read_head(row).filter(|head| head.follows(place, end)) else {
            return Ok(false);
        };
        for _ in 0..head.pairs {
            if !head.is_pair(alloc, number, rows.next())? {
                return Ok(false);
            }
            number = number.saturating_add(1);
        }
        end = head.end;
    }
    Ok(false)
}
