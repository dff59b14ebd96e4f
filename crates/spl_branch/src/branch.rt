ghost use Rattle.std.specs.Prelude.{◌≡◌};
ghost use Rattle.spl_branch.specs.Branch.{IsBranch, shown, table_of};
ghost use Rattle.spl_branch.specs.Reading.{admits, reach_of};

use spl_message::{Content, HashedKey, Key};
use spl_port::{EXTENT_PAGES, Seal};
use spl_quotient::Filter;
use std::marker::Model;

/// What a branch is made of, as its builder has it.
#[derive(Drop)]
pub struct Parts<S: Seal> {
    /// The branch's number.
    pub number: u64,
    /// Its extents, in the order of its pages. Those behind the last page hold nothing.
    pub extents: Vec<u32>,
    /// The seals of its extents, in the same order.
    pub seals: Vec<S>,
    /// How many of its pages are leaf pages.
    pub leaves: u32,
    /// How many levels of pages it has.
    pub levels: u32,
    /// How many keys it has.
    pub entries: u64,
    /// The keys of rank 1,024, 2,048 and so on, counted from 0.
    pub cuts: Vec<Key>,
    /// The filter over its keys.
    pub filter: Filter,
}

/// A sorted table in pages, written once and sealed.
#[derive(Drop)]
pub struct Branch<S: Seal> {
    pub(crate) parts: Parts<S>,
    /// How many pages it has.
    pub(crate) pages: u32,
}

impl<S: Seal> Model for Branch<S> {
    ghost use Rattle.std.specs.Prelude.{◌≡◌, map};
    ghost use Rattle.spl_branch.specs.Branch.{Branch as Shown, IsBranch, shown};
    ghost use Rattle.spl_branch.specs.Pages.{page_total};

    ghost Value = { Shown };

    ghost view = { λ b. shown S.means b.parts };

    ghost invariant = { λ b. IsBranch (shown S.means b.parts) × (b.pages ≡ page_total (map S.means b.parts.seals.items)) };
}

impl<S: Seal> Branch<S> {
    /// The branch of these parts.
    pub fn new(parts: Parts<S>) -> Branch<S>
        requires { IsBranch (shown S.means parts) }
        ensures { result ≡ shown S.means parts }
    {
        let full = parts.seals.len() - 1;
        let pages = full as u32 * EXTENT_PAGES + parts.seals[full].pages();
        Branch { parts, pages }
    }

    /// How many levels of pages it has: one, if it is a single leaf page.
    pub fn levels(&self) -> u32
        ensures { result ≡ self.now.levels }
    {
        self.parts.levels
    }
}

/// Whether the filter admits the key. Takes no memory.
pub(crate) fn is_admitted(filter: &Filter, key: &HashedKey) -> bool
    ensures { result ≡ admits filter.now key.now }
{
    filter.admits_hash(key.hash())
}

impl<S: Seal> Content for Branch<S> {
    ghost TELLS = { S.TELLS };

    ghost table = { table_of };

    ghost number = { λ branch. branch.number };

    ghost extents = { λ branch. branch.extents };

    ghost entries = { λ branch. branch.entries };

    ghost cuts = { λ branch. branch.cuts };

    ghost reach = { reach_of };

    fn number(&self) -> u64 {
        self.parts.number
    }

    fn extents(&self) -> &[u32] {
        self.parts.extents.as_slice()
    }

    fn entries(&self) -> u64 {
        self.parts.entries
    }

    fn cuts(&self) -> &[Key] {
        self.parts.cuts.as_slice()
    }

    fn reach(&self, key: &HashedKey) -> u32 {
        let levels = self.parts.levels;
        if is_admitted(&self.parts.filter, key) {
            levels
        } else {
            0
        }
    }
}
