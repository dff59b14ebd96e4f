ghost use Rattle.std.specs.Prelude.{◌≡◌, ◌+◌, ◌<◌, ◌≤◌, ◌^◌, [], ◌∷◌, ◌++◌, OnOk, OnErr, IsNone, Some, length};
ghost use Rattle.std.specs.List.{slice_get, slice_index_or};
ghost use Rattle.spl_port.specs.MemDraft.{place_of};

use crate::{At, PAGE_BYTES, PageBytes};
use spl_base::NoMemory;
use std::alloc::Global;
use std::marker::Model;

/// Pages in memory that are still being written. In a clause it is its place and these pages.
#[derive(Debug, Drop)]
pub struct MemDraft {
    extent: u32,
    branch: u64,
    first: u32,
    pages: Vec<PageBytes>,
}

impl Model for MemDraft {
    ghost use Rattle.std.specs.Prelude.{◌<◌, ◌≤◌, ◌^◌, vec_len};
    ghost use Rattle.spl_port.specs.MemDraft.{PageStack};

    ghost Value = { PageStack };

    ghost view = { λ d. record { extent = d.extent; branch = d.branch; first = d.first; pages = d.pages.items } };

    ghost invariant = { λ d. (d.first < 2 ^ 31) × (vec_len d.pages ≤ 32) };
}

impl MemDraft {
    pub(crate) fn new(alloc: Global, extent: u32, branch: u64, first: u32) -> MemDraft
        requires { first < 2 ^ 31 }
        ensures { result ≡ record { extent = extent; branch = branch; first = first; pages = [] } }
    {
        MemDraft {
            extent,
            branch,
            first,
            pages: Vec::new(alloc),
        }
    }

    pub(crate) fn push(&mut self, page: PageBytes) -> Result<(), NoMemory>
        requires { length self.old.pages < 32 }
        ensures ok { OnOk result (self.new ≡ record self.old { pages = self.old.pages ++ page ∷ [] }) }
        ensures err { OnErr result (self.new ≡ self.old) }
    {
        self.pages.push(page)?;
        Ok(())
    }

    pub(crate) fn page_count(&self) -> u32
        ensures { result ≡ length self.now.pages }
    {
        self.pages.len() as u32
    }

    /// The place of a page.
    pub(crate) fn at(&self, page: u32) -> At
        requires { page < length self.now.pages }
        ensures { result ≡ place_of self.now page }
    {
        let leaf = self.pages[page as usize].bytes()[0] == b'L';
        At {
            extent: self.extent,
            branch: self.branch,
            page: self.first + page,
            leaf,
        }
    }

    pub(crate) fn page(&self, page: u32) -> &[u8; PAGE_BYTES]
        requires { page < length self.now.pages }
        ensures { slice_get self.now.pages page ≡ Some result.now }
    {
        self.pages[page as usize].bytes()
    }
}
