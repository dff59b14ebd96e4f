ghost use Rattle.std.specs.Prelude.{◌≡◌, ◌+◌, ◌*◌, ◌<◌, ◌≤◌, ◌↔◌, [], ◌∷◌, ◌++◌, true, false, length, Some, None, IsTrue, IfOk, IfSome, OnOk, OnErr};
ghost use Rattle.std.specs.Option.{option_or};
ghost use Rattle.spl_message.specs.Key.{is_below};
ghost use Rattle.spl_page.specs.LeafPage.{leaf_entry_length};
ghost use Rattle.spl_page.specs.Lent.{message_lent};
ghost use Rattle.spl_page.specs.Tables.{table_length};
ghost use Rattle.spl_branch.specs.Pages.{AreParts, page_total};
ghost use Rattle.spl_port.specs.Port.{MovesNone, WritesOne};
ghost use Rattle.spl_build.specs.declared.stage.Stage.TheVariants.{Adding, Finishing};
ghost use Rattle.spl_build.specs.Builder.{Adds, Builds, Keeps, Needs, WritesLeaf, building};
ghost use Rattle.spl_build.specs.Counts.{OnlyWrites, WritesPages};
ghost use Rattle.spl_build.specs.Fault.{HasBuildCause};
ghost use Rattle.spl_build.specs.Work.{IsAdding, IsFinishing, IsWork, NoRoom};
ghost use Rattle.spl_build.specs.Written.{IsFull};

use crate::keys::Keys;
use crate::levels::Levels;
use crate::pages::Pages;
use crate::{Add, BuildFault};
use spl_branch::{Branch, Parts};
use spl_message::{Key, NoMemory};
use spl_page::{LeafWriter, LentMessage};
use spl_port::Port;
use spl_quotient::Filter;
use std::alloc::Global;
use std::marker::Model;
use std::mem;

/// A branch while it is built. After a fault it is not used again.
#[derive(Drop)]
pub(crate) struct Work<P: Port> {
    pages: Pages<P>,
    /// The leaf page that is begun, and its first key.
    leaf: LeafWriter,
    first: Option<Key>,
    keys: Keys,
    /// How many leaf pages are written.
    leaves: u32,
    levels: Levels,
}

impl<P: Port> Model for Work<P> {
    ghost use Rattle.spl_build.specs.Work.{WorkState};

    ghost Value = { WorkState };

    ghost view = { λ w. record {
      written = w.pages;
      begun = w.leaf;
      first = w.first;
      hashes = w.keys.hashes.items;
      cuts = w.keys.cuts.items;
      last = w.keys.last;
      leaves = w.leaves;
      levels = w.levels;
    } };
}

impl<P: Port> Work<P> {
    /// A branch with no keys. It takes no memory.
    pub(crate) fn new(alloc: Global, number: u64) -> Work<P>
        ensures sound { IsAdding result }
        ensures number { result.written ≡ record { number = number; extents = []; parts = [] } }
        ensures begun { result.begun ≡ [] }
        ensures hashes { result.hashes ≡ [] }
        ensures cuts { result.cuts ≡ [] }
        ensures last { result.last ≡ None }
        ensures levels { result.levels ≡ record { waiting = []; above = []; height = 0 } }
    {
        Work {
            pages: Pages::new(alloc, number),
            leaf: LeafWriter::new(alloc),
            first: None,
            keys: Keys::new(alloc),
            leaves: 0,
            levels: Levels::new(alloc),
        }
    }

    /// Whether no key was added.
    pub(crate) fn is_empty(&self) -> bool
        ensures { IsTrue result ↔ (length self.now.hashes ≡ 0) }
    {
        self.keys.hashes.is_empty()
    }

    /// Whether it has as many extents as a branch can have.
    pub(crate) fn has_most_extents(&self) -> bool
        ensures { IsTrue result ↔ (65536 ≤ length self.now.written.extents) }
    {
        self.pages.has_most_extents()
    }

    pub(crate) fn give(&mut self, extent: u32) -> Result<(), NoMemory>
        requires { length self.old.written.extents < 65536 }
        ensures ok { OnOk result (self.new ≡ record self.old {
          written = record self.old.written { extents = self.old.written.extents ++ extent ∷ [] };
        }) }
        ensures err { OnErr result (self.new ≡ self.old) }
    {
        self.pages.give(extent)
    }

    /// Adds a key with its message behind the others.
    pub(crate) fn add(
        &mut self,
        port: &mut P,
        key: &Key,
        message: LentMessage<'_>,
    ) -> Result<Add, BuildFault>
        requires adding { IsAdding self.old }
        requires rising { IfSome self.old.last (λ last. is_below last key.now ≡ true) }
        ensures needs { IfOk result (λ answer. (answer ≡ Add.Needs) ↔ NoRoom self.old key.now (message_lent message.entry)) }
        ensures same { result ≡ Ok Add.Needs → (self.new ≡ self.old) × (P.counts port.new ≡ P.counts port.old) }
        ensures adding { IfOk result (λ _. IsAdding self.new) }
        ensures done { result ≡ Ok Add.Done
            → Adds P.Seal.TELLS (building self.old Adding None) (building self.new Adding None) key.now (message_lent message.entry) }
        ensures pages { OnOk result (WritesPages (P.counts port.old) (P.counts port.new)
            (page_total self.old.written.parts) (page_total self.new.written.parts)) }
        ensures counts { WritesOne (P.counts port.old) (P.counts port.new) }
        ensures cause { HasBuildCause (P.counts port.old) (P.counts port.new) result }
    {
        if !self.leaf.fits_lent(key, message) {
            if self.pages.is_full() {
                return Ok(Add::Needs);
            }
            self.write_leaf(port)?;
        }
        self.push(key, message)?;
        Ok(Add::Done)
    }

    /// Puts a key with its message into the leaf page that is begun.
    fn push(&mut self, key: &Key, message: LentMessage<'_>) -> Result<(), NoMemory>
        requires adding { IsAdding self.old }
        requires rising { IfSome self.old.last (λ last. is_below last key.now ≡ true) }
        requires fits { table_length self.old.begun + leaf_entry_length key.now (message_lent message) ≤ 4096 }
        ensures adding { OnOk result (IsAdding self.new) }
        ensures done { OnOk result (Adds P.Seal.TELLS (building self.old Adding None) (building self.new Adding None) key.now (message_lent message.entry)) }
    {
        self.leaf.push_lent(key, message)?;
        set_first(&mut self.first, key);
        self.keys.push(key)?;
        Ok(())
    }

    /// Writes the leaf page that is begun.
    fn write_leaf(&mut self, port: &mut P) -> Result<(), BuildFault>
        requires adding { IsAdding self.old }
        requires some { 0 < length self.old.begun }
        requires room { page_total self.old.written.parts < 32 * length self.old.written.extents }
        ensures adding { OnOk result (IsAdding self.new) }
        ensures empty { OnOk result (self.new.begun ≡ []) }
        ensures kept { OnOk result (Keeps P.Seal.TELLS (building self.old Adding None) (building self.new Adding None)) }
        ensures written { OnOk result (WritesLeaf P.Seal.TELLS (building self.old Adding None) (building self.new Adding None)) }
        ensures pages { OnOk result (WritesPages (P.counts port.old) (P.counts port.new)
            (page_total self.old.written.parts) (page_total self.new.written.parts)) }
        ensures counts { WritesOne (P.counts port.old) (P.counts port.new) }
        ensures cause { HasBuildCause (P.counts port.old) (P.counts port.new) result }
    {
        let first = match self.first {
            Some(first) => first,
            None => unreachable!(),
        };
        let at = self.pages.next(true);
        let page = self.leaf.finish(at)?;
        self.pages.append(port, &page)?;
        self.levels.push(at.page, first)?;
        self.first = None;
        self.leaves += 1;
        Ok(())
    }

    /// Writes the remaining pages. Returns the branch, or none if the next page has no extent.
    pub(crate) fn finish(&mut self, port: &mut P) -> Result<Option<Branch<P::Seal>>, BuildFault>
        requires { IsFinishing self.old }
        ensures needs { result ≡ Ok None → IsFinishing self.new
            × Needs P.Seal.TELLS (building self.old Finishing None) (building self.new Finishing None) }
        ensures built { IfOk result (λ answer. IfSome answer (λ branch.
            Builds P.Seal.TELLS (building self.old Finishing None) branch)) }
        ensures needs_pages { result ≡ Ok None → WritesPages (P.counts port.old) (P.counts port.new)
            (page_total self.old.written.parts) (page_total self.new.written.parts) }
        ensures built_pages { IfOk result (λ answer. IfSome answer (λ branch. WritesPages (P.counts port.old) (P.counts port.new)
            (page_total self.old.written.parts) (page_total branch.parts))) }
        ensures counts { OnlyWrites (P.counts port.old) (P.counts port.new) }
        ensures cause { HasBuildCause (P.counts port.old) (P.counts port.new) result }
    {
        if !self.write_last_leaf(port)? || !self.write_indexes(port)? {
            return Ok(None);
        }
        Ok(Some(self.build(port)?))
    }

    /// Writes the current leaf page, if there is one. Returns whether it is written.
    fn write_last_leaf(&mut self, port: &mut P) -> Result<bool, BuildFault>
        requires { IsFinishing self.old }
        ensures finishing { OnOk result (IsFinishing self.new) }
        ensures leaf { result ≡ Ok true → self.new.begun ≡ [] }
        ensures needs { result ≡ Ok false → (0 < length self.new.begun) × IsFull self.new.written.extents self.new.written.parts }
        ensures parts { result ≡ Ok false → AreParts self.new.written.number self.new.written.extents self.new.written.parts }
        ensures kept { OnOk result (Keeps P.Seal.TELLS (building self.old Finishing None) (building self.new Finishing None)) }
        ensures pages { OnOk result (WritesPages (P.counts port.old) (P.counts port.new)
            (page_total self.old.written.parts) (page_total self.new.written.parts)) }
        ensures counts { WritesOne (P.counts port.old) (P.counts port.new) }
        ensures cause { HasBuildCause (P.counts port.old) (P.counts port.new) result }
    {
        if self.leaf.len() > 0 {
            if self.pages.is_full() {
                return Ok(false);
            }
            self.write_leaf(port)?;
        }
        Ok(true)
    }

    /// Writes the remaining index pages. Returns whether all are written.
    fn write_indexes(&mut self, port: &mut P) -> Result<bool, BuildFault>
        requires sound { IsWork self.old }
        requires leaf { self.old.begun ≡ [] }
        ensures sound { OnOk result (IsWork self.new) }
        ensures leaf { OnOk result (self.new.begun ≡ []) }
        ensures hashes { OnOk result (self.new.hashes ≡ self.old.hashes) }
        ensures kept { OnOk result (Keeps P.Seal.TELLS (building self.old Finishing None) (building self.new Finishing None)) }
        ensures written { result ≡ Ok true → length self.new.levels.waiting + length self.new.levels.above ≤ 1 }
        ensures needs { result ≡ Ok false → IsFull self.new.written.extents self.new.written.parts
            × (1 < length self.new.levels.waiting + length self.new.levels.above) }
        ensures parts { result ≡ Ok false → AreParts self.new.written.number self.new.written.extents self.new.written.parts }
        ensures pages { OnOk result (WritesPages (P.counts port.old) (P.counts port.new)
            (page_total self.old.written.parts) (page_total self.new.written.parts)) }
        ensures counts { OnlyWrites (P.counts port.old) (P.counts port.new) }
        ensures cause { HasBuildCause (P.counts port.old) (P.counts port.new) result }
    {
        while self.levels.roots() > 1 {
            if self.pages.is_full() {
                return Ok(false);
            }
            self.write_index(port)?;
        }
        Ok(true)
    }

    /// Writes an index page over the first pages that have no parent.
    fn write_index(&mut self, port: &mut P) -> Result<(), BuildFault>
        requires sound { IsWork self.old }
        requires leaf { self.old.begun ≡ [] }
        requires roots { 1 < length self.old.levels.waiting + length self.old.levels.above }
        requires room { page_total self.old.written.parts < 32 * length self.old.written.extents }
        ensures sound { OnOk result (IsWork self.new) }
        ensures leaf { OnOk result (self.new.begun ≡ []) }
        ensures hashes { OnOk result (self.new.hashes ≡ self.old.hashes) }
        ensures total { OnOk result (page_total self.new.written.parts ≡ page_total self.old.written.parts + 1) }
        ensures pages { OnOk result (WritesPages (P.counts port.old) (P.counts port.new)
            (page_total self.old.written.parts) (page_total self.new.written.parts)) }
        ensures kept { OnOk result (Keeps P.Seal.TELLS (building self.old Finishing None) (building self.new Finishing None)) }
        ensures counts { WritesOne (P.counts port.old) (P.counts port.new) }
        ensures cause { HasBuildCause (P.counts port.old) (P.counts port.new) result }
    {
        let mut index = self.levels.pack()?;
        let children = index.len();
        let at = self.pages.next(false);
        let page = index.finish(at)?;
        self.pages.append(port, &page)?;
        self.levels.adopt(children, at.page)?;
        Ok(())
    }

    /// The branch, of which all pages are written.
    fn build(&mut self, port: &mut P) -> Result<Branch<P::Seal>, BuildFault>
        requires sound { IsWork self.old }
        requires leaf { self.old.begun ≡ [] }
        requires some { 0 < length self.old.hashes }
        requires root { length self.old.levels.waiting + length self.old.levels.above ≤ 1 }
        ensures built { IfOk result (λ branch. Builds P.Seal.TELLS (building self.old Finishing None) branch) }
        ensures parts { IfOk result (λ branch. branch.parts ≡ self.old.written.parts) }
        ensures counts { MovesNone (P.counts port.old) (P.counts port.new) }
        ensures ok_faults { OnOk result ((P.counts port.new).faults ≡ (P.counts port.old).faults) }
        ensures cause { HasBuildCause (P.counts port.old) (P.counts port.new) result }
    {
        let number = self.pages.number();
        let closed = self.pages.close(port)?;
        let alloc = *closed.extents.allocator();
        let filter = Filter::of_hashes(alloc, &self.keys.hashes)?;
        Ok(Branch::new(Parts {
            number,
            extents: closed.extents,
            seals: closed.seals,
            leaves: self.leaves,
            levels: self.levels.height() + 1,
            entries: self.keys.hashes.len() as u64,
            cuts: mem::replace(&mut self.keys.cuts, Vec::new(alloc)),
            filter,
        }))
    }
}

/// Keeps the key, if there is none yet.
fn set_first(first: &mut Option<Key>, key: &Key)
    ensures { first.new ≡ option_or first.old (Some key.now) }
{
    if first.is_none() {
        *first = Some(*key);
    }
}
