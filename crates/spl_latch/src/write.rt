ghost use Rattle.std.specs.Prelude.{◌≡◌};

use crate::word::idle;
use counted_slot::{Claim, Fits};

/// The right to replace a value, which nobody else reads or writes until then. Each write has to end with `put` or
/// `put_marked`.
#[must_use]
pub struct Write<'a, T: Fits + Drop> {
    claim: Claim<'a, Option<T>>,
    ghost writes: { claim.right ≡ 2 },
}

impl<'a, T: Fits + Drop> Write<'a, T> {
    pub(crate) fn new(claim: Claim<'a, Option<T>>) -> Write<'a, T>
        requires { claim.right ≡ 2 }
        ensures { result.claim.tag ≡ claim.entry.tag }
    {
        Write { claim }
    }

    /// Replaces the value. The mark is 0.
    pub fn put(self, value: T)
        requires { T.fits self.claim.tag value }
    {
        self.put_marked(value, 0);
    }

    /// Replaces the value and its mark.
    pub fn put_marked(self, value: T, mark: u32)
        requires { T.fits self.claim.tag value }
    {
        let Write { claim } = self;
        claim.put(Some(value), idle(mark));
    }
}
