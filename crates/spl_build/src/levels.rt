ghost use Rattle.std.specs.Prelude.{◌≡◌, ◌+◌, ◌<◌, ◌≤◌, ◌^◌, ◌++◌, [], ◌∷◌, length, take, IfOk, OnOk};
ghost use Rattle.spl_message.specs.Key.{AreRising};
ghost use Rattle.spl_page.specs.IndexPage.{index_rows_of};
ghost use Rattle.spl_page.specs.Tables.{child_keys};
ghost use Rattle.spl_build.specs.Levels.{IsPacked, adopted};

use spl_message::{Key, NoMemory};
use spl_page::{IndexEntry, IndexWriter};
use std::alloc::Global;
use std::marker::Model;
use std::mem;

/// The pages that have no parent yet, each with the first key under it.
#[derive(Drop)]
pub(crate) struct Levels {
    /// The pages of the current level, in order.
    level: Vec<IndexEntry>,
    /// How many of them have a parent.
    packed: usize,
    /// Their parents.
    above: Vec<IndexEntry>,
    /// How high the level is above the leaf pages.
    height: u32,
}

impl Model for Levels {
    ghost use Rattle.std.specs.Prelude.{◌≤◌, drop, length};
    ghost use Rattle.spl_page.specs.IndexPage.{index_rows_of};
    ghost use Rattle.spl_build.specs.Levels.{LevelState};

    ghost Value = { LevelState };

    ghost view = { λ l. record {
      waiting = index_rows_of (drop l.packed l.level.items);
      above = index_rows_of l.above.items;
      height = l.height;
    } };

    ghost invariant = { λ l. l.packed ≤ length l.level.items };
}

impl Levels {
    /// No pages. It takes no memory.
    pub(crate) fn new(alloc: Global) -> Levels
        ensures { result ≡ record { waiting = []; above = []; height = 0 } }
    {
        Levels {
            level: Vec::new(alloc),
            packed: 0,
            above: Vec::new(alloc),
            height: 0,
        }
    }

    /// How many pages have no parent.
    pub(crate) fn roots(&self) -> usize
        ensures { result ≡ length self.now.waiting + length self.now.above }
    {
        self.level.len() - self.packed + self.above.len()
    }

    pub(crate) fn height(&self) -> u32
        ensures { result ≡ self.now.height }
    {
        self.height
    }

    /// Appends a page to the current level.
    pub(crate) fn push(&mut self, child: u32, first: Key) -> Result<(), NoMemory>
        ensures { OnOk result (self.new ≡ record self.old { waiting = self.old.waiting ++ record { child = child; key = first } ∷ [] }) }
    {
        self.level.push(IndexEntry { child, first })?;
        Ok(())
    }

    /// An index page over the first waiting pages, as many as fit.
    pub(crate) fn pack(&self) -> Result<IndexWriter, NoMemory>
        requires { AreRising (child_keys self.now.waiting) }
        ensures front { IfOk result (λ page. page ≡ take (length page) self.now.waiting) }
        ensures some { 0 < length self.now.waiting → IfOk result (λ page. 0 < length page) }
        ensures full { IfOk result (λ page. IsPacked page self.now.waiting) }
        ensures many { IfOk result (λ page. length page < length self.now.waiting → 59 ≤ length page) }
    {
        let mut page = IndexWriter::new(*self.level.allocator());
        fill(&mut page, &self.level[self.packed..])?;
        Ok(page)
    }

    /// Makes the page with this number the parent of the first waiting pages, so many.
    pub(crate) fn adopt(&mut self, count: usize, page: u32) -> Result<(), NoMemory>
        requires some { 0 < count }
        requires there { count ≤ length self.old.waiting }
        requires height { self.old.height < 2 ^ 31 }
        ensures { OnOk result (self.new ≡ adopted self.old count page) }
    {
        let first = self.level[self.packed].first;
        self.above.push(IndexEntry { child: page, first })?;
        self.packed += count;
        if self.packed == self.level.len() {
            mem::swap(&mut self.level, &mut self.above);
            self.above.clear();
            self.packed = 0;
            self.height += 1;
        }
        Ok(())
    }
}

/// Fills the index page with the first entries, as many as fit.
fn fill(page: &mut IndexWriter, entries: &[IndexEntry]) -> Result<(), NoMemory>
    requires empty { page.old ≡ [] }
    requires rising { AreRising (child_keys (index_rows_of entries.now)) }
    ensures front { OnOk result (page.new ≡ take (length page.new) (index_rows_of entries.now)) }
    ensures some { 0 < length entries.now → OnOk result (0 < length page.new) }
    ensures full { OnOk result (IsPacked page.new (index_rows_of entries.now)) }
    ensures many { OnOk result (length page.new < length entries.now → 59 ≤ length page.new) }
{
    for entry in entries {
        if !page.fits(&entry.first) {
            return Ok(());
        }
        page.push(entry.child, &entry.first)?;
    }
    Ok(())
}
