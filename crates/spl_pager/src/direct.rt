ghost use Rattle.std.specs.Prelude.{◌≡◌, ◌+◌, ◌%◌, ◌<◌, Some, IfOk, IfErr};
ghost use Rattle.std.specs.Arc.{arc_value};
ghost use Rattle.spl_port.specs.Port.{ReadsOne};
ghost use Rattle.spl_port.specs.Seal.{page_count, place};
ghost use Rattle.spl_page.specs.AnyPage.{shown_of};
ghost use Rattle.spl_pager.specs.Fetching.{HasFetchCause, IsFetched, IsLatest};

use crate::{FetchFault, Pager};
use spl_page::AnyPage;
use spl_port::{At, EXTENT_PAGES, Port};
use std::alloc::Global;
use std::sync::Arc;

/// The pager that reads the port each time, and checks what it read.
#[derive(Clone, Copy, Debug)]
pub struct Direct;

impl Pager for Direct {
    ghost shows = { λ _. IsLatest };

    fn fetch<P: Port>(
        &self,
        alloc: Global,
        port: &mut P,
        seal: &P::Seal,
        at: At,
    ) -> Result<Arc<AnyPage>, FetchFault> {
        let bytes = port.read(seal, at.page % EXTENT_PAGES)?;
        let page = AnyPage::check(alloc, bytes, at)?;
        Ok(Arc::new(alloc, page)?)
    }
}
