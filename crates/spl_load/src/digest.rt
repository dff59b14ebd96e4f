//! The digest of a report, taken row by row: no report is ever whole in memory.
ghost use Rattle.std.specs.Prelude.{◌≡◌, IfOk, fold};
ghost use Rattle.spl_message.specs.Fnv.{fnv_of, fnv_step};
ghost use Rattle.spl_report.specs.ReportText.{report_text, row_text};

use spl_message::{NoMemory, fnv};
use spl_report::{Row, push_row};
use std::alloc::Global;

/// What a hash is multiplied by at each byte.
const PRIME: u64 = 0x100000001b3;

/// The hash with these bytes behind those that it has.
fn hash_on(hash: u64, bytes: &[u8]) -> u64
    ensures { result ≡ fold fnv_step hash bytes.now }
{
    bytes.iter().fold(
        hash,
        |hash, byte| (hash ^ u64::from(*byte)).wrapping_mul(PRIME),
    )
}

/// The hash with the text of one more row. The room holds that text meanwhile; what it held before is lost.
fn hash_row(hash: u64, room: &mut Vec<u8>, row: &Row) -> Result<u64, NoMemory>
    ensures { IfOk result (λ more. more ≡ fold fnv_step hash (row_text row.now)) }
{
    room.clear();
    push_row(room, row)?;
    Ok(hash_on(hash, room.as_slice()))
}

/// The hash of the report of these rows.
pub(crate) fn digest_of(alloc: Global, rows: &[Row]) -> Result<u64, NoMemory>
    ensures { IfOk result (λ digest. digest ≡ fnv_of (report_text rows.now)) }
{
    let mut hash = fnv(b"");
    let mut room = Vec::new(alloc);
    for row in rows {
        hash = hash_row(hash, &mut room, row)?;
    }
    Ok(hash)
}
