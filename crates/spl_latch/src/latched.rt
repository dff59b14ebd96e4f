ghost use Rattle.std.specs.Prelude.{◌≡◌, IfOk};

use crate::word::{idle, is_readable, mark_of};
use crate::{Found, Read, Write};
use counted_slot::{Counted, FREE, Fits, ONE_READER, PRESENT, TAKEN};

/// A value that many threads may read at the same time, or one may replace.
///
/// The maker of a latch states a fact about its values by the tag: every value that is put in has that fact, and so has
/// every value that is shown. Beside the value is a mark, by which a caller may guess what is inside before it reads.
#[derive(Drop)]
pub struct Latched<T: Fits + Drop> {
    slot: Counted<Option<T>>,
}

impl<T: Fits + Drop> Latched<T> {
    /// A latch over this value, which nobody holds. Its mark is 0.
    pub fn new(value: T, tag: &T::Tag) -> Latched<T>
        requires { T.fits tag.now value }
        ensures { result.slot ≡ tag.now }
    {
        let slot = Counted::new(None, tag);
        let (found, claim) = slot.turn(FREE, TAKEN);
        if found == FREE {
            claim.put(Some(value), idle(0));
        } else {
            claim.done();
        }
        Latched { slot }
    }

    /// The mark of the value, as it is now. Another thread may put a value with another mark at any time.
    pub fn mark(&self) -> u32 {
        mark_of(self.slot.load())
    }

    /// Reads the value beside other readers.
    ///
    /// If nobody writes the value, the exchange adds one reader to those that it met; else it expects a value that was
    /// just put back.
    pub fn try_read(&self) -> Result<Read<'_, T>, Found>
        ensures { IfOk result (λ read. read.claim.tag ≡ self.now.slot) }
    {
        let seen = self.slot.load();
        let asked = if is_readable(seen) {
            seen
        } else {
            idle(mark_of(seen))
        };
        let (word, claim) = self.slot.turn(asked, asked + ONE_READER);
        if word != asked {
            claim.done();
            return Err(Found { word });
        }
        Read::new(claim).ok_or(Found { word })
    }

    /// Takes the value to replace it. It is shown to nobody until then.
    pub fn try_write(&self) -> Result<Write<'_, T>, Found>
        ensures { IfOk result (λ write. write.claim.tag ≡ self.now.slot) }
    {
        let asked = idle(self.mark());
        let (word, claim) = self.slot.turn(asked, asked - PRESENT + TAKEN);
        if word != asked {
            claim.done();
            return Err(Found { word });
        }
        Ok(Write::new(claim))
    }
}
