ghost use Rattle.std.specs.Prelude.{◌≡◌, ◌+◌, ◌<◌, ◌≤◌, ◌↔◌, ◌++◌, [], ◌∷◌, false, length, None, All, IsTrue, IfOk, OnOk, OnErr};
ghost use Rattle.spl_message.specs.Key.{AreRising};
ghost use Rattle.spl_port.specs.Page.{index_fault};
ghost use Rattle.spl_port.specs.Seal.{begins_leaf};
ghost use Rattle.spl_page.specs.IndexPage.{index_entry_length};
ghost use Rattle.spl_page.specs.Tables.{child_keys, children, children_length};
ghost use Rattle.spl_page.specs.Writer.{written_children};

use crate::IndexForm;
use crate::index_slot::{ENTRY_HEAD, entry_head};
use crate::writer::Writer;
use spl_message::{Key, NoMemory};
use spl_port::{At, PageBytes};
use std::alloc::Global;
use std::marker::Model;

/// An index page that is written child by child into its bytes. In a clause it is the list of its children.
///
/// It allocates one page at the first child, and returns that memory as the page.
#[derive(Debug, Drop)]
pub struct IndexWriter {
    page: Writer<IndexForm>,
}

impl Model for IndexWriter {
    ghost use Rattle.std.specs.Prelude.{List};
    ghost use Rattle.spl_port.specs.Page.{IndexRow};
    ghost use Rattle.spl_page.specs.Writer.{written_children};

    ghost Value = { List IndexRow };

    ghost view = { λ w. written_children w.page };
}

impl IndexWriter {
    /// A page with no children. It takes no memory.
    pub fn new(alloc: Global) -> IndexWriter
        ensures { result ≡ [] }
    {
        IndexWriter {
            page: Writer::new(alloc),
        }
    }

    /// How many children there are.
    pub fn len(&self) -> usize
        ensures value { result ≡ length self.now }
        ensures most { result ≤ 680 }
    {
        self.page.len()
    }

    /// Whether the page still has room for a child with this first key. An empty page has.
    pub fn fits(&self, first: &Key) -> bool
        ensures value { IsTrue result ↔ (children_length self.now + index_entry_length first.now ≤ 4096) }
        ensures short { index_entry_length first.now ≤ 69 }
    {
        self.page.fits(entry_length(first))
    }

    /// Appends a child.
    pub fn push(&mut self, child: u32, first: &Key) -> Result<(), NoMemory>
        requires rising { AreRising (child_keys (self.old ++ record { child = child; key = first.now } ∷ [])) }
        requires fits { children_length self.old + index_entry_length first.now ≤ 4096 }
        ensures ok { OnOk result (self.new ≡ self.old ++ record { child = child; key = first.now } ∷ []) }
        ensures err { OnErr result (self.new ≡ self.old) }
    {
        push_child(&mut self.page, child, first)
    }

    /// The page's bytes for a place. The writer is then empty, and takes no memory.
    pub fn finish(&mut self, at: At) -> Result<PageBytes, NoMemory>
        requires index { at.leaf ≡ false }
        requires entries { 0 < length self.old }
        requires children { All (λ row. row.child < at.page) self.old }
        ensures page { IfOk result (λ page. index_fault at page ≡ None) }
        ensures children { IfOk result (λ page. children at.page page ≡ self.old) }
        ensures kind { IfOk result (λ page. begins_leaf page ≡ false) }
        ensures ok { OnOk result (self.new ≡ []) }
        ensures err { OnErr result (self.new ≡ self.old) }
    {
        self.page.finish(at)
    }
}

/// Appends a child to a page.
pub(crate) fn push_child(
    page: &mut Writer<IndexForm>,
    child: u32,
    first: &Key,
) -> Result<(), NoMemory>
    requires rising { AreRising (child_keys (written_children page.old
        ++ record { child = child; key = first.now } ∷ [])) }
    requires fits { children_length (written_children page.old) + index_entry_length first.now ≤ 4096 }
    ensures ok { OnOk result (written_children page.new ≡ written_children page.old
        ++ record { child = child; key = first.now } ∷ []) }
    ensures err { OnErr result (page.new ≡ page.old) }
{
    let key = first.bytes();
    page.push(&entry_head(child, key), key, &[])
}

/// How many bytes an entry with this first key takes.
pub(crate) fn entry_length(first: &Key) -> usize
    ensures value { result ≡ index_entry_length first.now }
    ensures short { result ≤ 69 }
{
    ENTRY_HEAD + first.bytes().len()
}
