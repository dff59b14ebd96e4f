ghost use Rattle.std.specs.Prelude.{◌≡◌, true, not, IfOk};
ghost use Rattle.spl_message.specs.Span.{is_before};
ghost use Rattle.spl_page.specs.AnyPage.{is_leaf, shown_of};
ghost use Rattle.spl_page.specs.Tables.{leaf_table};
ghost use Rattle.spl_scan.specs.Search.{IsMet, is_after, is_next};

use spl_message::{Bound, Key, Message, NoMemory, Span};
use spl_page::{AnyPage, LeafForm, LentEntry, SoundPage};
use std::alloc::Global;

/// What a scan finds from a place of a page on.
#[derive(Debug, Drop)]
pub(crate) enum Met {
    /// The next entry of the span, and the place behind it.
    Entry(Key, Message, usize),
    /// An entry past the span.
    Past,
    /// The end of the page.
    Over,
}

/// The next entry of the span above the last key, from this place of the leaf page on.
pub(crate) fn next_in(
    alloc: Global,
    page: &AnyPage,
    place: usize,
    span: &Span,
    last: &Option<Key>,
) -> Result<Met, NoMemory>
    requires { is_leaf page.now ≡ true }
    ensures { IfOk result (IsMet span.now last.now (leaf_table (shown_of page.now).bytes) place) }
{
    match page {
        AnyPage::Leaf(leaf) => next_of(alloc, leaf, place, span, last),
        AnyPage::Index(_) => unreachable!(),
    }
}

fn next_of(
    alloc: Global,
    leaf: &SoundPage<LeafForm>,
    place: usize,
    span: &Span,
    last: &Option<Key>,
) -> Result<Met, NoMemory>
    ensures { IfOk result (IsMet span.now last.now (leaf_table leaf.now.bytes) place) }
{
    for at in place..leaf.len() {
        let Some(entry) = leaf.entry(at) else {
            return Ok(Met::Over);
        };
        let key = key_of(&entry);
        if is_past(&span.to, &key) {
            return Ok(Met::Past);
        }
        if comes(span, last, &key) {
            let message = entry.message.copy(alloc)?;
            return Ok(Met::Entry(key, message, at + 1));
        }
    }
    Ok(Met::Over)
}

/// The key of the entry.
fn key_of(entry: &LentEntry) -> Key
    ensures { result ≡ entry.now.key.now }
{
    match Key::read(entry.key) {
        Ok(key) => key,
        Err(_) => unreachable!(),
    }
}

/// Whether the key is not before the end, if there is one.
fn is_past(end: &Option<Bound>, key: &Key) -> bool
    ensures { result ≡ not (is_before end.now key.now) }
{
    match end {
        Some(end) => !end.is_above(key),
        None => false,
    }
}

/// Whether the key is one of the span, above the last one.
fn comes(span: &Span, last: &Option<Key>, key: &Key) -> bool
    ensures { result ≡ is_next span.now last.now key.now }
{
    span.holds(key) && rises(last, key)
}

/// Whether the key is above the last one, if there is one.
fn rises(last: &Option<Key>, key: &Key) -> bool
    ensures { result ≡ is_after last.now key.now }
{
    match last {
        Some(last) => last < key,
        None => true,
    }
}
