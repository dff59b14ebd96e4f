//! One pass over the bytes of a page that checks them, and keeps where each entry starts. It takes no memory.
ghost use Rattle.std.specs.Prelude.{◌≡◌, ◌≤◌, None, length, take, MatchOption};
ghost use Rattle.spl_port.specs.Page.{kind_fault, row_count};
ghost use Rattle.spl_page.specs.Sound.{AreStarts, IsChecked, IsScan, page_rows};

use crate::Form;
use crate::frame::{HEAD_BYTES, entry_count, head_fault, rows_fault};
use spl_port::{At, Why};

/// The greatest number of entries of a page: each has at least 5 bytes.
pub(crate) const ENTRY_LIMIT: usize = 816;

/// The first reason why the bytes are not the page of the place, of this kind. If there is none, `starts` has where
/// each entry starts.
pub(crate) fn form_fault<F: Form>(bytes: &[u8], at: At, starts: &mut [u16]) -> Option<Why>
    requires page { length bytes.now ≡ 4096 }
    requires room { length starts.old ≡ 816 }
    ensures fault { result ≡ kind_fault F.KIND F.entry_key (page_rows (F.entry at.page) F.entry_length bytes.now) at bytes.now }
    ensures starts { result ≡ None → IsChecked F.KIND (F.entry at.page) F.entry_length F.entry_key at bytes.now (take (row_count bytes.now) starts.new) }
    ensures few { result ≡ None → row_count bytes.now ≤ 816 }
{
    if let Some(why) = head_fault(F::KIND, at, bytes) {
        return Some(why);
    }
    match scan::<F>(bytes, at.page, starts) {
        Some(pass) => rows_fault(pass.rising, pass.rest),
        None => Some(Why::Entry),
    }
}

/// The result of a pass over the entries.
#[derive(Drop)]
struct Pass<'a> {
    /// Whether each key is above the one before it.
    rising: bool,
    /// The bytes behind the entries.
    rest: &'a [u8],
}

/// The entries of a page with this number, each with its start, if they are there.
fn scan<'a, F: Form>(bytes: &'a [u8], page: u32, starts: &mut [u16]) -> Option<Pass<'a>>
    requires page { length bytes.now ≡ 4096 }
    requires room { length starts.old ≡ 816 }
    ensures { MatchOption result (page_rows (F.entry page) F.entry_length bytes.now ≡ None)
        (λ pass. IsScan (F.entry page) F.entry_length F.entry_key bytes.now starts.new pass.rising pass.rest.now) }
{
    let mut rising = true;
    // Each key is above no bytes.
    let mut last: &[u8] = &[];
    let mut end = HEAD_BYTES;
    let count = entry_count(bytes);
    for index in 0..count {
        let slot = match F::slot(page, &bytes[end..]) {
            Some(slot) => slot,
            None => return None,
        };
        rising &= last.cmp(&slot.key).is_lt();
        last = slot.key;
        starts[index as usize] = end as u16;
        end += slot.size;
    }
    let rest = &bytes[end..];
    Some(Pass { rising, rest })
}
