ghost use Rattle.std.specs.Prelude.{◌≡◌, ◌+◌, ◌*◌, ◌<◌, ◌≤◌, ◌↔◌, ◌++◌, [], ◌∷◌, true, length, map, sum_by, Some, IsSome, IsTrue, IfOk, IfErr, OnOk, OnErr};
ghost use Rattle.spl_message.specs.Key.{AreRising};
ghost use Rattle.spl_port.specs.Page.{IsLeafPage, is_rising, leaf_row, leaf_row_length};
ghost use Rattle.spl_page.specs.PageFault.{IsFaultOf};
ghost use Rattle.spl_page.specs.LeafPage.{leaf_entry_length, leaf_keys, leaf_length, leaf_row_of, leaf_rows_of};
ghost use Rattle.spl_page.specs.Sound.{AreStarts, entries_of};
ghost use Rattle.spl_page.specs.Tables.{leaf_size};
ghost use Rattle.spl_page.specs.Writer.{leaf_rows_written};

use crate::frame::{HEAD_BYTES, entry_count};
use crate::leaf_slot::LeafSlot;
use crate::leaf_writer::{entry_length, push_entry};
use crate::scan::{ENTRY_LIMIT, form_fault};
use crate::sound_page::bytes_from;
use crate::writer::Writer;
use crate::{LeafEntry, LeafForm, LentMessage, PageFault};
use spl_message::{Key, Message, NoMemory};
use spl_port::{At, Damaged, PAGE_BYTES, PageBytes};
use std::alloc::Global;
use std::marker::Model;

/// A list of keys with their messages, in order. In a clause it is that list.
#[derive(Debug, Drop)]
pub struct LeafPage {
    entries: Vec<LeafEntry>,
    /// How many bytes the entries take in a page, with the header. Saturates at `usize::MAX`.
    bytes: usize,
}

impl Model for LeafPage {
    ghost use Rattle.std.specs.Prelude.{List};
    ghost use Rattle.spl_page.specs.declared.leaf_entry.LeafEntry.{LeafEntry};

    ghost Value = { List LeafEntry };

    ghost use Rattle.spl_page.specs.LeafPage.{IsSound};

    ghost view = { λ p. p.entries.items };

    ghost invariant = { λ p. IsSound p.entries.items p.bytes };
}

impl LeafPage {
    /// A page with no keys.
    pub fn new(alloc: Global) -> LeafPage
        ensures { result ≡ [] }
    {
        LeafPage {
            entries: Vec::new(alloc),
            bytes: HEAD_BYTES,
        }
    }

    /// Appends a key with a copy of the message.
    pub fn push(&mut self, key: &Key, message: &Message) -> Result<(), NoMemory>
        requires { IsTrue (is_rising (leaf_keys self.old ++ key.now ∷ [])) }
        ensures ok { OnOk result (self.new ≡ self.old ++ record { key = key.now; message = message.now } ∷ []) }
        ensures err { OnErr result (self.new ≡ self.old) }
    {
        let key = *key;
        let len = entry_length(&key, LentMessage::of(message));
        let message = message.copy()?;
        self.entries.push(LeafEntry { key, message })?;
        self.bytes = self.bytes.saturating_add(len);
        Ok(())
    }

    /// The keys with their messages.
    pub fn entries(&self) -> &[LeafEntry]
        ensures value { result.now ≡ self.now }
        ensures rising { IsTrue (is_rising (leaf_keys self.now)) }
    {
        self.entries.as_slice()
    }

    /// Whether the page still has room for this key with this message.
    pub fn fits(&self, key: &Key, message: &Message) -> bool
        ensures { IsTrue result ↔ (leaf_length self.now + leaf_entry_length key.now message.now ≤ 4096) }
    {
        self.bytes <= PAGE_BYTES - entry_length(key, LentMessage::of(message))
    }

    /// The page's bytes for a place.
    pub fn write(&self, at: At) -> Result<PageBytes, NoMemory>
        requires leaf { at.leaf ≡ true }
        requires fits { leaf_length self.now ≤ 4096 }
        requires entries { 0 < length self.now }
        ensures { IfOk result (λ page. IsLeafPage at page (leaf_rows_of self.now)) }
    {
        let mut page = Writer::new(*self.entries.allocator());
        write_entries(&mut page, self.entries.as_slice())?;
        page.finish(at)
    }

    /// The page with these bytes, if they are a leaf page for the place.
    pub fn read(alloc: Global, bytes: &[u8; PAGE_BYTES], at: At) -> Result<LeafPage, PageFault>
        requires { at.leaf ≡ true }
        ensures ok { IfOk result (λ page. IsLeafPage at bytes.now (leaf_rows_of page)) }
        ensures err { IfErr result (IsFaultOf at bytes.now) }
    {
        let mut starts = [0; ENTRY_LIMIT];
        if let Some(why) = form_fault::<LeafForm>(bytes, at, &mut starts) {
            return Err(PageFault::Damaged(Damaged { at, why }));
        }
        let count = entry_count(bytes) as usize;
        let Found { entries, end } = read_entries(alloc, bytes, &starts[..count])?;
        Ok(LeafPage {
            entries,
            bytes: end,
        })
    }
}

/// Writes the entries into an empty page.
fn write_entries(page: &mut Writer<LeafForm>, entries: &[LeafEntry]) -> Result<(), NoMemory>
    requires empty { leaf_rows_written page.old ≡ [] }
    requires rising { AreRising (map (λ row. row.key) (leaf_rows_of entries.now)) }
    requires fits { 16 + sum_by leaf_size (leaf_rows_of entries.now) ≤ 4096 }
    ensures { OnOk result (leaf_rows_written page.new ≡ leaf_rows_of entries.now) }
{
    for entry in entries {
        push_entry(page, &entry.key, LentMessage::of(&entry.message))?;
    }
    Ok(())
}

/// The entries of a page.
#[derive(Drop)]
struct Found {
    entries: Vec<LeafEntry>,
    /// The place behind the last entry.
    end: usize,
}

/// The entries of a page, which start at these places.
fn read_entries(alloc: Global, bytes: &[u8; PAGE_BYTES], starts: &[u16]) -> Result<Found, NoMemory>
    requires places { AreStarts leaf_row leaf_row_length bytes.now starts.now }
    requires few { length starts.now ≤ 816 }
    ensures ok { IfOk result (λ found. entries_of leaf_row leaf_row_length bytes.now ≡ leaf_rows_of found.entries.items) }
    ensures end { IfOk result (λ found. found.end ≡ leaf_length found.entries.items) }
    ensures short { IfOk result (λ found. found.end ≤ 16 + 580 * 816) }
{
    let mut entries = Vec::new(alloc);
    let mut end = HEAD_BYTES;
    for start in starts {
        let entry = read_entry(alloc, bytes_from(bytes, *start))?;
        end += entry_length(&entry.key, LentMessage::of(&entry.message));
        entries.push(entry)?;
    }
    Ok(Found { entries, end })
}

/// The entry at the front of these bytes.
fn read_entry(alloc: Global, bytes: &[u8]) -> Result<LeafEntry, NoMemory>
    requires { IsSome (leaf_row bytes.now) }
    ensures { IfOk result (λ entry. leaf_row bytes.now ≡ Some (leaf_row_of entry)) }
{
    let slot = match LeafSlot::read(bytes) {
        Some(slot) => slot,
        None => unreachable!(),
    };
    let key = match Key::read(slot.key) {
        Ok(key) => key,
        Err(_) => unreachable!(),
    };
    let message = slot.message().copy(alloc)?;
    Ok(LeafEntry { key, message })
}
