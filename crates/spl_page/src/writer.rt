ghost use Rattle.std.specs.Prelude.{◌≡◌, ◌+◌, ◌*◌, ◌<◌, ◌≤◌, ◌↔◌, ◌++◌, [], ◌∷◌, ◌^◌, length, None, All, sum_by, slice_index, IsTrue, IfOk, OnOk, OnErr};
ghost use Rattle.spl_port.specs.Page.{kind_fault};
ghost use Rattle.spl_page.specs.Sound.{entries_of, page_rows};
ghost use Rattle.spl_page.specs.Writer.{IsNext, IsText, nothing, rows_written, with_text};

use crate::Form;
use crate::frame::{HEAD_BYTES, write_head};
use crate::page_text::{append_entry, finish_page};
use spl_message::NoMemory;
use spl_port::{At, PAGE_BYTES, PageBytes};
use std::alloc::Global;
use std::marker::{Model, PhantomData};

/// A page that is written entry by entry into its bytes. In a clause it is how many entries there are, and their bytes.
///
/// It allocates one page at the first entry, and returns that memory as the page.
#[derive(Debug, Drop)]
pub(crate) struct Writer<F: Form> {
    /// Space for the header, and the entries; or nothing yet.
    bytes: Vec<u8>,
    /// How many entries there are.
    count: u16,
    form: PhantomData<F>,
}

impl<F: Form> Model for Writer<F> {
    ghost use Rattle.std.specs.Prelude.{drop};
    ghost use Rattle.spl_page.specs.Writer.{IsConsistent, Written};

    ghost Value = { Written };

    ghost view = { λ w. record { count = w.count; text = drop 16 w.bytes.items } };

    ghost invariant = { λ w.
        IsConsistent F.entry F.entry_length F.entry_key F.size F.IsAt (record { count = w.count; text = drop 16 w.bytes.items }) };
}

impl<F: Form> Writer<F> {
    /// A page with no entries. It takes no memory.
    pub(crate) fn new(alloc: Global) -> Writer<F>
        ensures { result ≡ nothing }
    {
        Writer {
            bytes: Vec::new(alloc),
            count: 0,
            form: PhantomData,
        }
    }

    /// How many entries there are.
    pub(crate) fn len(&self) -> usize
        ensures value { result ≡ length (rows_written F.entry F.entry_length self.now) }
        ensures sized { length self.now.text ≡ sum_by F.size (rows_written F.entry F.entry_length self.now) }
        ensures least { 5 * result ≤ length self.now.text }
        ensures most { 16 + length self.now.text ≤ 4096 }
    {
        self.count as usize
    }

    /// Whether the page still has room for an entry of so many bytes.
    pub(crate) fn fits(&self, size: usize) -> bool
        requires { size ≤ 4080 }
        ensures value { IsTrue result ↔ (16 + length self.now.text + size ≤ 4096) }
        ensures sized { length self.now.text ≡ sum_by F.size (rows_written F.entry F.entry_length self.now) }
    {
        self.bytes.len().max(HEAD_BYTES) <= PAGE_BYTES - size
    }

    /// Appends an entry with these bytes.
    pub(crate) fn push(&mut self, head: &[u8], key: &[u8], value: &[u8]) -> Result<(), NoMemory>
        requires { IsNext F.entry F.entry_length F.entry_key F.size F.IsAt self.old
            (head.now ++ (key.now ++ value.now)) }
        ensures ok { OnOk result (self.new ≡ with_text self.old (head.now ++ (key.now ++ value.now))) }
        ensures entries { OnOk result ((entry : F.Entry)
            → IsText F.entry F.entry_length F.size F.IsAt entry (head.now ++ (key.now ++ value.now)) → F.IsAt (2 ^ 32) entry
            → rows_written F.entry F.entry_length self.new ≡ rows_written F.entry F.entry_length self.old ++ entry ∷ []) }
        ensures err { OnErr result (self.new ≡ self.old) }
    {
        append_entry(&mut self.bytes, head, key, value)?;
        self.count += 1;
        Ok(())
    }

    /// The page's bytes for a place. The writer is then empty, and takes no memory.
    pub(crate) fn finish(&mut self, at: At) -> Result<PageBytes, NoMemory>
        requires some { 0 < length (rows_written F.entry F.entry_length self.old) }
        requires places { All (F.IsAt at.page) (rows_written F.entry F.entry_length self.old) }
        ensures page { IfOk result (λ page.
            kind_fault F.KIND F.entry_key (page_rows (F.entry at.page) F.entry_length page) at page ≡ None) }
        ensures entries { IfOk result (λ page.
            entries_of (F.entry at.page) F.entry_length page ≡ rows_written F.entry F.entry_length self.old) }
        ensures kind { IfOk result (λ page. slice_index page 0 ≡ F.KIND) }
        ensures ok { OnOk result (self.new ≡ nothing) }
        ensures err { OnErr result (self.new ≡ self.old) }
        ensures counted { self.old.count ≡ length (rows_written F.entry F.entry_length self.old) }
        ensures most { 16 + 5 * self.old.count ≤ 4096 }
    {
        let head = write_head(F::KIND, self.count, at);
        let page = finish_page(&mut self.bytes, &head)?;
        self.count = 0;
        Ok(page)
    }
}
