ghost use Rattle.std.specs.Prelude.{◌≡◌, ◌+◌, ◌%◌, ◌<◌, ◌≤◌, IfOk, IfErr, vec_len};
ghost use Rattle.std.specs.Arc.{arc_value};
ghost use Rattle.spl_port.specs.Port.{ReadsOne};
ghost use Rattle.spl_port.specs.Seal.{page_count, place};
ghost use Rattle.spl_page.specs.AnyPage.{shown_of};
ghost use Rattle.spl_pager.specs.Fetching.{HasFetchCause, IsFetched};

use crate::set::Set;
use spl_message::NoMemory;
use spl_page::AnyPage;
use spl_pager::{FetchFault, Pager};
use spl_port::{At, EXTENT_PAGES, Port, Seal};
use std::alloc::Global;
use std::sync::Arc;

/// How many sets a cache has at most.
pub const SETS: u32 = 4096;

const _: () = prove!(SETS == 4096);

/// The pages that were read, in sets of eight frames. It is a pager that many threads share.
#[derive(Drop)]
pub struct Cache {
    sets: Vec<Set>,
    ghost some: { 0 < vec_len sets },
}

impl Cache {
    /// A cache without pages.
    pub fn new(alloc: Global, sets: u32) -> Result<Cache, NoMemory>
        requires some { 0 < sets }
        requires limit { sets ≤ SETS }
    {
        let mut made = Vec::with_capacity(alloc, sets as usize)?;
        for _ in 0..sets {
            made.push(Set::new(alloc)?)?;
        }
        Ok(Cache { sets: made })
    }

    /// The set of the place: pages of one branch that follow one another are in neighbouring sets.
    fn set_of(&self, at: At) -> &Set {
        let sets = self.sets.len() as u64;
        let set = at.branch.wrapping_add(at.page as u64) % sets;
        &self.sets[set as usize]
    }
}

impl Pager for Cache {
    ghost shows = { λ _ _ _ _. Unit {0} };

    fn fetch<P: Port>(
        &self,
        alloc: Global,
        port: &mut P,
        seal: &P::Seal,
        at: At,
    ) -> Result<Arc<AnyPage>, FetchFault> {
        let mark = mark_of(at);
        let set = self.set_of(at);
        let page = at.page % EXTENT_PAGES;
        if let Some(kept) = set.find(at, mark) {
            if seal.vouches(page, kept.bytes()) {
                return Ok(kept);
            }
        }
        let bytes = port.read(seal, page)?;
        let read = AnyPage::check(alloc, bytes, at)?;
        let read = Arc::new(alloc, read)?;
        set.keep(&read, mark);
        Ok(read)
    }
}

/// The mark of the page of a place, which is never 0. Two places may have the same one.
fn mark_of(at: At) -> u32 {
    let mixed = at.branch.wrapping_mul(0x9e37_79b9_7f4a_7c15)
        ^ (at.page as u64).wrapping_mul(0xc2b2_ae3d_27d4_eb4f);
    ((mixed >> 32) & 0xffff_ffff) as u32 | 1
}
