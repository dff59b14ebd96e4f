ghost use Rattle.std.specs.Prelude.{◌≡◌, ℕ, Bool, true, List};
ghost use Rattle.spl_message.specs.Table.{Table, IsTable, cuts_of, key_count};

use crate::hash::HashedKey;
use crate::key::Key;

/// A branch, as others see it: a table that never changes, with a number, and extents of the file that hold it.
///
/// Where the ghost member `TELLS` is true the branch means its table. Where it is false the device may give anything
/// for its pages, and no clause speaks of what they hold. No code can ask which it is, so that what serves one kind of
/// device serves the other.
pub trait Content: Drop {
    ghost TELLS: { Bool };

    ghost table: { Self → Table };

    ghost number: { Self → ℕ };

    ghost extents: { Self → List ℕ };

    ghost entries: { Self → ℕ };

    ghost cuts: { Self → List (List ℕ) };

    ghost reach: { Self → List ℕ → ℕ };

    /// The branch's number.
    fn number(&self) -> u64
        ensures { result ≡ number self.now };

    /// The numbers of its extents, in the order of its pages.
    fn extents(&self) -> &[u32]
        ensures { result.now ≡ extents self.now };

    /// How many keys it has.
    fn entries(&self) -> u64
        ensures value { result ≡ entries self.now }
        ensures told { TELLS ≡ true → IsTable (table self.now) × (result ≡ key_count (table self.now)) };

    /// The keys at which it may be cut: every 1,024th, in order, but for the first key of all.
    fn cuts(&self) -> &[Key]
        ensures value { result.now ≡ cuts self.now }
        ensures told { TELLS ≡ true → result.now ≡ cuts_of (table self.now) };

    /// At most how many pages a lookup of the key reads. Takes no memory.
    fn reach(&self, key: &HashedKey) -> u32
        ensures { result ≡ reach self.now key.now };
}
