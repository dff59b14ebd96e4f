ghost use Rattle.std.specs.Prelude.{◌≡◌, ◌+◌, ◌<◌, ◌≤◌, ◌↔◌, ◌++◌, [], ◌∷◌, true, length, map, sum_by, None, IsTrue, IfOk, OnOk, OnErr};
ghost use Rattle.spl_message.specs.Key.{AreRising};
ghost use Rattle.spl_message.specs.Entries.{AreEntries};
ghost use Rattle.spl_port.specs.Page.{leaf_fault};
ghost use Rattle.spl_port.specs.Seal.{begins_leaf};
ghost use Rattle.spl_page.specs.LeafPage.{kind_of, leaf_entry_length, leaf_row_of, value_of};
ghost use Rattle.spl_page.specs.Lent.{message_lent};
ghost use Rattle.spl_page.specs.Tables.{leaf_size, leaf_table, table_length};
ghost use Rattle.spl_page.specs.Writer.{leaf_rows_written};

use crate::leaf_slot::{ENTRY_HEAD, entry_head};
use crate::writer::Writer;
use crate::{LeafForm, LentMessage};
use spl_message::{Key, Message, NoMemory};
use spl_port::{At, PageBytes};
use std::alloc::Global;
use std::marker::Model;

/// A leaf page that is written entry by entry into its bytes. In a clause it is the table of its entries.
///
/// It allocates one page at the first entry, and returns that memory as the page.
#[derive(Debug, Drop)]
pub struct LeafWriter {
    page: Writer<LeafForm>,
}

impl Model for LeafWriter {
    ghost use Rattle.spl_message.specs.Entries.{Entries};
    ghost use Rattle.spl_page.specs.Writer.{written_table};

    ghost Value = { Entries };

    ghost view = { λ w. written_table w.page };
}

impl LeafWriter {
    /// A page with no entries. It takes no memory.
    pub fn new(alloc: Global) -> LeafWriter
        ensures { result ≡ [] }
    {
        LeafWriter {
            page: Writer::new(alloc),
        }
    }

    /// How many entries there are.
    pub fn len(&self) -> usize
        ensures value { result ≡ length self.now }
        ensures most { result ≤ 816 }
    {
        self.page.len()
    }

    /// Whether the page still has room for this key with this message. An empty page has.
    pub fn fits(&self, key: &Key, message: &Message) -> bool
        ensures value { IsTrue result ↔ (table_length self.now + leaf_entry_length key.now message.now ≤ 4096) }
        ensures short { leaf_entry_length key.now message.now ≤ 580 }
    {
        self.fits_lent(key, LentMessage::of(message))
    }

    /// The same for a borrowed message.
    pub fn fits_lent(&self, key: &Key, message: LentMessage<'_>) -> bool
        ensures value { IsTrue result ↔ (table_length self.now + leaf_entry_length key.now (message_lent message.entry) ≤ 4096) }
        ensures short { leaf_entry_length key.now (message_lent message.entry) ≤ 580 }
    {
        self.page.fits(entry_length(key, message))
    }

    /// Appends a key with its message.
    pub fn push(&mut self, key: &Key, message: &Message) -> Result<(), NoMemory>
        requires rising { AreEntries (self.old ++ (key.now, message.now) ∷ []) }
        requires fits { table_length self.old + leaf_entry_length key.now message.now ≤ 4096 }
        ensures ok { OnOk result (self.new ≡ self.old ++ (key.now, message.now) ∷ []) }
        ensures err { OnErr result (self.new ≡ self.old) }
    {
        self.push_lent(key, LentMessage::of(message))
    }

    /// Appends a key with a borrowed message.
    pub fn push_lent(&mut self, key: &Key, message: LentMessage<'_>) -> Result<(), NoMemory>
        requires rising { AreEntries (self.old ++ (key.now, message_lent message) ∷ []) }
        requires fits { table_length self.old + leaf_entry_length key.now (message_lent message) ≤ 4096 }
        ensures ok { OnOk result (self.new ≡ self.old ++ (key.now, message_lent message.entry) ∷ []) }
        ensures err { OnErr result (self.new ≡ self.old) }
    {
        push_entry(&mut self.page, key, message)
    }

    /// The page's bytes for a place. The writer is then empty, and takes no memory.
    pub fn finish(&mut self, at: At) -> Result<PageBytes, NoMemory>
        requires leaf { at.leaf ≡ true }
        requires entries { 0 < length self.old }
        ensures page { IfOk result (λ page. leaf_fault at page ≡ None) }
        ensures table { IfOk result (λ page. leaf_table page ≡ self.old) }
        ensures kind { IfOk result (λ page. begins_leaf page ≡ true) }
        ensures most { length self.old ≤ 816 }
        ensures ok { OnOk result (self.new ≡ []) }
        ensures err { OnErr result (self.new ≡ self.old) }
    {
        self.page.finish(at)
    }
}

/// Appends a key with its message to a page.
pub(crate) fn push_entry(
    page: &mut Writer<LeafForm>,
    key: &Key,
    message: LentMessage<'_>,
) -> Result<(), NoMemory>
    requires rising { AreRising (map (λ row. row.key) (leaf_rows_written page.old
        ++ leaf_row_of (record { key = key.now; message = message_lent message }) ∷ [])) }
    requires fits { 16 + sum_by leaf_size (leaf_rows_written page.old)
        + leaf_entry_length key.now (message_lent message) ≤ 4096 }
    ensures ok { OnOk result (leaf_rows_written page.new ≡ leaf_rows_written page.old
        ++ leaf_row_of (record { key = key.now; message = message_lent message.entry }) ∷ []) }
    ensures err { OnErr result (page.new ≡ page.old) }
{
    let key = key.bytes();
    let value = value_bytes(message);
    let head = entry_head(key, kind_number(message), value);
    page.push(&head, key, value)
}

/// How many bytes an entry with this key and this message takes.
pub(crate) fn entry_length(key: &Key, message: LentMessage<'_>) -> usize
    ensures value { result ≡ leaf_entry_length key.now (message_lent message.entry) }
    ensures short { result ≤ 580 }
{
    ENTRY_HEAD + key.bytes().len() + value_bytes(message).len()
}

/// The bytes of the value in a message.
fn value_bytes(message: LentMessage<'_>) -> &[u8]
    ensures value { result.now ≡ value_of (message_lent message.entry) }
    ensures short { length result.now ≤ 512 }
{
    match message {
        LentMessage::Insert(value) => value.bytes(),
        LentMessage::Delete => &[],
        LentMessage::Update(operand) => operand.bytes(),
    }
}

/// The number of a message's kind.
fn kind_number(message: LentMessage<'_>) -> u8
    ensures { result ≡ kind_of (message_lent message.entry) }
{
    match message {
        LentMessage::Insert(_) => 0,
        LentMessage::Delete => 1,
        LentMessage::Update(_) => 2,
    }
}
