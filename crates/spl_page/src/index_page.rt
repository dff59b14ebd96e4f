ghost use Rattle.std.specs.Prelude.{◌≡◌, ◌+◌, ◌*◌, ◌<◌, ◌≤◌, ◌↔◌, ◌++◌, [], ◌∷◌, false, length, All, Some, IsSome, IsTrue, IfOk, IfErr, OnOk, OnErr};
ghost use Rattle.spl_message.specs.Key.{AreRising};
ghost use Rattle.spl_port.specs.Page.{IsIndexPage, index_row, index_row_length, is_rising};
ghost use Rattle.spl_page.specs.PageFault.{IsFaultOf};
ghost use Rattle.spl_page.specs.IndexPage.{first_keys, index_entry_length, index_length, index_row_of, index_rows_of};
ghost use Rattle.spl_page.specs.Sound.{AreStarts, entries_of};
ghost use Rattle.spl_page.specs.Tables.{child_keys, children_length};
ghost use Rattle.spl_page.specs.Writer.{written_children};

use crate::frame::{HEAD_BYTES, entry_count};
use crate::index_slot::IndexSlot;
use crate::index_writer::{entry_length, push_child};
use crate::scan::{ENTRY_LIMIT, form_fault};
use crate::sound_page::bytes_from;
use crate::writer::Writer;
use crate::{IndexEntry, IndexForm, PageFault};
use spl_message::{Key, NoMemory};
use spl_port::{At, Damaged, PAGE_BYTES, PageBytes};
use std::alloc::Global;
use std::marker::Model;

/// A list of children with their first keys, in order. In a clause it is that list.
#[derive(Debug, Drop)]
pub struct IndexPage {
    entries: Vec<IndexEntry>,
    /// How many bytes the entries take in a page, with the header. Saturates at `usize::MAX`.
    bytes: usize,
}

impl Model for IndexPage {
    ghost use Rattle.std.specs.Prelude.{List};
    ghost use Rattle.spl_page.specs.declared.index_entry.IndexEntry.{IndexEntry};

    ghost Value = { List IndexEntry };

    ghost use Rattle.spl_page.specs.IndexPage.{IsSound};

    ghost view = { λ p. p.entries.items };

    ghost invariant = { λ p. IsSound p.entries.items p.bytes };
}

impl IndexPage {
    /// A page with no children.
    pub fn new(alloc: Global) -> IndexPage
        ensures { result ≡ [] }
    {
        IndexPage {
            entries: Vec::new(alloc),
            bytes: HEAD_BYTES,
        }
    }

    /// Appends a child.
    pub fn push(&mut self, child: u32, first: &Key) -> Result<(), NoMemory>
        requires { IsTrue (is_rising (first_keys self.old ++ first.now ∷ [])) }
        ensures ok { OnOk result (self.new ≡ self.old ++ record { child = child; first = first.now } ∷ []) }
        ensures err { OnErr result (self.new ≡ self.old) }
    {
        let first = *first;
        self.entries.push(IndexEntry { child, first })?;
        self.bytes = self.bytes.saturating_add(entry_length(&first));
        Ok(())
    }

    /// The children.
    pub fn entries(&self) -> &[IndexEntry]
        ensures value { result.now ≡ self.now }
        ensures rising { IsTrue (is_rising (first_keys self.now)) }
    {
        self.entries.as_slice()
    }

    /// Whether the page still has room for a child with this first key.
    pub fn fits(&self, key: &Key) -> bool
        ensures { IsTrue result ↔ (index_length self.now + index_entry_length key.now ≤ 4096) }
    {
        self.bytes <= PAGE_BYTES - entry_length(key)
    }

    /// The page's bytes for a place.
    pub fn write(&self, at: At) -> Result<PageBytes, NoMemory>
        requires index { at.leaf ≡ false }
        requires fits { index_length self.now ≤ 4096 }
        requires entries { 0 < length self.now }
        requires children { All (λ entry. entry.child < at.page) self.now }
        ensures { IfOk result (λ page. IsIndexPage at page (index_rows_of self.now)) }
    {
        let mut page = Writer::new(*self.entries.allocator());
        write_entries(&mut page, self.entries.as_slice())?;
        page.finish(at)
    }

    /// The page with these bytes, if they are an index page for the place.
    pub fn read(alloc: Global, bytes: &[u8; PAGE_BYTES], at: At) -> Result<IndexPage, PageFault>
        requires { at.leaf ≡ false }
        ensures ok { IfOk result (λ page. IsIndexPage at bytes.now (index_rows_of page)) }
        ensures err { IfErr result (IsFaultOf at bytes.now) }
    {
        let mut starts = [0; ENTRY_LIMIT];
        if let Some(why) = form_fault::<IndexForm>(bytes, at, &mut starts) {
            return Err(PageFault::Damaged(Damaged { at, why }));
        }
        let count = entry_count(bytes) as usize;
        let Found { entries, end } = read_entries(alloc, bytes, at.page, &starts[..count])?;
        Ok(IndexPage {
            entries,
            bytes: end,
        })
    }
}

/// Writes the children into an empty page.
fn write_entries(page: &mut Writer<IndexForm>, entries: &[IndexEntry]) -> Result<(), NoMemory>
    requires empty { written_children page.old ≡ [] }
    requires rising { AreRising (child_keys (index_rows_of entries.now)) }
    requires fits { children_length (index_rows_of entries.now) ≤ 4096 }
    ensures { OnOk result (written_children page.new ≡ index_rows_of entries.now) }
{
    for entry in entries {
        push_child(page, entry.child, &entry.first)?;
    }
    Ok(())
}

/// The entries of a page.
#[derive(Drop)]
struct Found {
    entries: Vec<IndexEntry>,
    /// The place behind the last entry.
    end: usize,
}

/// The entries of a page with this number, which start at these places.
fn read_entries(
    alloc: Global,
    bytes: &[u8; PAGE_BYTES],
    page: u32,
    starts: &[u16],
) -> Result<Found, NoMemory>
    requires places { AreStarts (index_row page) index_row_length bytes.now starts.now }
    requires few { length starts.now ≤ 816 }
    ensures ok { IfOk result (λ found. entries_of (index_row page) index_row_length bytes.now ≡ index_rows_of found.entries.items) }
    ensures end { IfOk result (λ found. found.end ≡ index_length found.entries.items) }
    ensures short { IfOk result (λ found. found.end ≤ 16 + 580 * 816) }
{
    let mut entries = Vec::new(alloc);
    let mut end = HEAD_BYTES;
    for start in starts {
        let entry = read_entry(bytes_from(bytes, *start), page);
        end += entry_length(&entry.first);
        entries.push(entry)?;
    }
    Ok(Found { entries, end })
}

/// The entry at the front of these bytes of a page with this number.
fn read_entry(bytes: &[u8], page: u32) -> IndexEntry
    requires { IsSome (index_row page bytes.now) }
    ensures { index_row page bytes.now ≡ Some (index_row_of result) }
{
    let slot = match IndexSlot::read(bytes, page) {
        Some(slot) => slot,
        None => unreachable!(),
    };
    let child = slot.child;
    match Key::read(slot.key) {
        Ok(first) => IndexEntry { child, first },
        Err(_) => unreachable!(),
    }
}
