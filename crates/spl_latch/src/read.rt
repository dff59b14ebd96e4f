ghost use Rattle.std.specs.Prelude.{◌≡◌, Some, IsSome, IsSomeAnd, IfSome};

use counted_slot::{Claim, Fits};

/// A value that is read. No one writes it until `leave`, which each read has to end with.
#[must_use]
pub struct Read<'a, T: Fits + Drop> {
    claim: Claim<'a, Option<T>>,
    ghost reads: { claim.right ≡ 1 },
    ghost filled: { ∥ IsSomeAnd claim.value IsSome ∥₁ },
}

impl<'a, T: Fits + Drop> Read<'a, T> {
    /// The read of this claim. There is none where the latch holds no value, which none made by `new` does.
    pub(crate) fn new(claim: Claim<'a, Option<T>>) -> Option<Read<'a, T>>
        requires { claim.right ≡ 1 }
        ensures { IfSome result (λ read. read.claim.tag ≡ claim.entry.tag) }
    {
        if claim.get().is_none() {
            claim.leave();
            return None;
        }
        Some(Read { claim })
    }

    /// The value, which is the same until the read ends.
    pub fn value(&self) -> &T
        ensures fits { T.fits self.now.claim.tag result.now }
        ensures same { self.now.claim.value ≡ Some (Some result.now) }
    {
        match self.claim.get() {
            Some(value) => value,
            None => unreachable!(),
        }
    }

    /// Ends the read.
    pub fn leave(self) {
        let Read { claim } = self;
        claim.leave();
    }
}
