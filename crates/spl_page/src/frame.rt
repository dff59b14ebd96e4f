//! What a page has around its entries: a header of 16 bytes, which says what page it is, and zeros behind them.
ghost use Rattle.std.specs.Prelude.{◌≡◌, ◌<◌, ◌≤◌, ◌^◌, ◌==◌, length};
ghost use Rattle.std.specs.List.{list_all};
ghost use Rattle.spl_port.specs.Page.{number_at, row_count};
ghost use Rattle.spl_page.specs.Frame.{found_fault, head_fault, head_text};

use byteorder::{BigEndian, ByteOrder};
use spl_port::{At, Why};

/// The size of the header.
pub(crate) const HEAD_BYTES: usize = 16;

/// The first byte of a leaf page.
pub(crate) const LEAF_KIND: u8 = 0x4C;

/// The first byte of an index page.
pub(crate) const INDEX_KIND: u8 = 0x49;

/// The format of the pages.
const FORMAT: u8 = 1;

/// The first reason why the header is not that of a page of this kind.
pub(crate) fn head_fault(kind: u8, at: At, bytes: &[u8]) -> Option<Why>
    requires { 16 ≤ length bytes.now }
    ensures { result ≡ head_fault kind at bytes.now }
{
    if bytes[0] != kind || bytes[1] != FORMAT {
        return Some(Why::Kind);
    }
    if page_number(bytes) != at.page || branch_number(bytes) != at.branch {
        return Some(Why::Number);
    }
    if entry_count(bytes) == 0 {
        return Some(Why::Count);
    }
    None
}

/// How many entries the page says that it has.
pub(crate) fn entry_count(bytes: &[u8]) -> u16
    requires { 16 ≤ length bytes.now }
    ensures { result ≡ row_count bytes.now }
{
    BigEndian::read_u16(&bytes[2..])
}

fn page_number(bytes: &[u8]) -> u32
    requires { 16 ≤ length bytes.now }
    ensures { result ≡ number_at 4 4 bytes.now }
{
    BigEndian::read_u32(&bytes[4..])
}

fn branch_number(bytes: &[u8]) -> u64
    requires { 16 ≤ length bytes.now }
    ensures { result ≡ number_at 8 8 bytes.now }
{
    BigEndian::read_u64(&bytes[8..])
}

/// The header of a page.
pub(crate) fn write_head(kind: u8, count: u16, at: At) -> [u8; HEAD_BYTES]
    ensures bytes { result ≡ head_text kind count at }
    ensures page { at.page < 2 ^ 32 }
    ensures branch { at.branch < 2 ^ 64 }
{
    let mut head = [0; HEAD_BYTES];
    head[0] = kind;
    head[1] = FORMAT;
    BigEndian::write_u16(&mut head[2..], count);
    BigEndian::write_u32(&mut head[4..], at.page);
    BigEndian::write_u64(&mut head[8..], at.branch);
    head
}

/// The first reason against entries that were all read: keys out of order, or bytes behind them that are not 0.
pub(crate) fn rows_fault(rising: bool, rest: &[u8]) -> Option<Why>
    ensures { result ≡ found_fault rising rest.now }
{
    if !rising {
        return Some(Why::Order);
    }
    if !is_zeros(rest) {
        return Some(Why::Rest);
    }
    None
}

/// Whether the bytes behind the entries are all 0.
fn is_zeros(bytes: &[u8]) -> bool
    ensures { result ≡ list_all (λ byte. byte == 0) bytes.now }
{
    // No early exit: the compiler then tests many bytes at once.
    let mut all = true;
    for byte in bytes {
        all &= *byte == 0;
    }
    all
}
