//! A pager that keeps the page that it gave last.
ghost use Rattle.std.specs.Prelude.{◌≡◌, ◌+◌, ◌%◌, ◌<◌, IfOk, IfErr, IfSome};
ghost use Rattle.std.specs.Arc.{arc_value};
ghost use Rattle.spl_port.specs.Port.{ReadsOne};
ghost use Rattle.spl_port.specs.Seal.{page_count, place};
ghost use Rattle.spl_page.specs.AnyPage.{shown_of};
ghost use Rattle.spl_pager.specs.Fetching.{HasFetchCause, IsFetched};

use spl_page::AnyPage;
use spl_pager::{FetchFault, Pager};
use spl_port::{At, EXTENT_PAGES, Port, Seal};
use std::alloc::Global;
use std::cell::Cell;
use std::sync::Arc;

/// The pager, but a page that is asked for a second time in a row is not asked of it again. A scan asks for its first leaf page at the end
/// of the way down, and then to take its entries.
#[derive(Drop)]
pub(crate) struct Latest<'g, G> {
    pager: &'g G,
    page: Cell<Option<Arc<AnyPage>>>,
}

impl<'g, G: Pager> Latest<'g, G> {
    /// It keeps no page yet.
    pub(crate) fn new(pager: &'g G) -> Latest<'g, G> {
        Latest {
            pager,
            page: Cell::new(None),
        }
    }

    /// The page that is kept, where it is that of the place. It is not kept any longer.
    fn take(&self, at: At) -> Option<Arc<AnyPage>>
        ensures { IfSome result (λ page. (shown_of (arc_value page)).at ≡ at) }
    {
        let page = self.page.replace(None)?;
        if page.at() == at { Some(page) } else { None }
    }
}

impl<'g, G: Pager> Pager for Latest<'g, G> {
    ghost shows = { λ _ _ _ _. Unit {0} };

    fn fetch<P: Port>(
        &self,
        alloc: Global,
        port: &mut P,
        seal: &P::Seal,
        at: At,
    ) -> Result<Arc<AnyPage>, FetchFault>
        requires there { at.page % 32 < page_count (P.Seal.means seal.now) }
        requires place { at ≡ place (P.Seal.means seal.now) (at.page % 32) }
        ensures ok { IfOk result (λ page.
            IsFetched (P.Seal.means seal.now) at (P.counts port.old) (P.counts port.new) (shown_of (arc_value page))) }
        ensures shown { IfOk result (λ page. Unit {0}) }
        ensures counts { ReadsOne (P.counts port.old) (P.counts port.new) }
        ensures cause { IfErr result (HasFetchCause (P.Seal.means seal.now) at (P.counts port.old) (P.counts port.new)) }
    {
        if let Some(kept) = self.take(at) {
            if seal.vouches(at.page % EXTENT_PAGES, kept.bytes()) {
                return Ok(kept);
            }
        }
        let page = self.pager.fetch(alloc, port, seal, at)?;
        if let Ok(copy) = page.clone() {
            self.page.set(Some(copy));
        }
        Ok(page)
    }
}
