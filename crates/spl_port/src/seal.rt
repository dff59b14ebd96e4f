ghost use Rattle.std.specs.Prelude.{◌≡◌, ◌<◌, Bool, Some, IsTrue, IfSome, is_some};
ghost use Rattle.std.specs.List.{slice_get};
ghost use Rattle.spl_port.specs.Seal.{Sealed, Allows, page_count, place};

use crate::{At, PAGE_BYTES};

/// Pages that were written one after the other and stay as they are.
///
/// A seal may be read through any port of the same kind as the one that made it.
pub trait Seal: Send + Sync + Drop {
    /// Whether reads are known to return its pages as written. There is no such value at run time, so code that serves
    /// every device serves both kinds alike. Every seal tells its places.
    ghost TELLS: { Bool };

    /// What was sealed.
    ghost means: { Self → Sealed };

    /// How many pages there are, at most 32.
    fn pages(&self) -> u32
        ensures { result ≡ page_count (means self.now) };

    /// The place of a page, which is counted from 0.
    fn at(&self, page: u32) -> At
        requires { page < page_count (means self.now) }
        ensures { result ≡ place (means self.now) page };

    /// Whether the bytes may be that page. It takes no memory. For a page that is not told either answer is right.
    fn vouches(&self, page: u32, bytes: &[u8; PAGE_BYTES]) -> bool
        ensures only { IsTrue result → Allows (means self.now) page bytes.now }
        ensures told { IfSome (means self.now).told (λ pages. slice_get pages page ≡ Some bytes.now → IsTrue result) };

    ghost tells: { (seal : Self) → is_some (means seal).told ≡ TELLS };
}
