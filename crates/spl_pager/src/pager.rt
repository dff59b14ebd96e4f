ghost use Rattle.std.specs.Prelude.{◌≡◌, ◌+◌, ◌%◌, ◌<◌, IfOk, IfErr};
ghost use Rattle.std.specs.Arc.{arc_value};
ghost use Rattle.spl_port.specs.Counts.{Counts, Shown};
ghost use Rattle.spl_port.specs.Port.{ReadsOne};
ghost use Rattle.spl_port.specs.Seal.{page_count, place};
ghost use Rattle.spl_page.specs.AnyPage.{shown_of};
ghost use Rattle.spl_pager.specs.Fetching.{HasFetchCause, IsFetched};

use crate::FetchFault;
use spl_page::AnyPage;
use spl_port::{At, Port};
use std::alloc::Global;
use std::sync::Arc;

/// What reads the pages of branches from a port, as a cache does.
pub trait Pager: Drop {
    /// That a call of `fetch` gave this page, and took the port's counts from the first ones to the second. Generic
    /// code has this fact only from such a call.
    ghost shows: { Self → Counts → Counts → Shown → Type 0 };

    /// The page at the place, by at most one read of the port.
    fn fetch<P: Port>(
        &self,
        alloc: Global,
        port: &mut P,
        seal: &P::Seal,
        at: At,
    ) -> Result<Arc<AnyPage>, FetchFault>
        requires there { at.page % 32 < page_count (P.Seal.means seal.now) }
        requires place { at ≡ place (P.Seal.means seal.now) (at.page % 32) }
        ensures ok { IfOk result (λ page.
            IsFetched (P.Seal.means seal.now) at (P.counts port.old) (P.counts port.new) (shown_of (arc_value page))) }
        ensures shown { IfOk result (λ page. shows self.now (P.counts port.old) (P.counts port.new) (shown_of (arc_value page))) }
        ensures counts { ReadsOne (P.counts port.old) (P.counts port.new) }
        ensures cause { IfErr result (HasFetchCause (P.Seal.means seal.now) at (P.counts port.old) (P.counts port.new)) };
}
