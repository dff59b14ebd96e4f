//! The word of a latch: in its low half the state and the readers, and in its high half the mark of the value.
ghost use Rattle.std.specs.Prelude.{◌≡◌, ◌+◌, ◌-◌, ◌*◌, ◌%◌, ◌<◌, ◌≤◌, ◌↔◌, IsTrue};
ghost use Rattle.counted_slot.specs.Counting.{readers};

use counted_slot::{MOST_READERS, ONE_READER, PRESENT};

/// How many words there are with the same mark.
const MARK: u64 = 0x1_0000_0000;

/// Whether the value may be read under the word, and one more reader can be counted.
pub(crate) fn is_readable(word: u64) -> bool
    ensures { IsTrue result ↔ (word % 4 ≡ 1) × (readers word < 1073741823) }
{
    word % 4 == PRESENT && word % MARK / ONE_READER < MOST_READERS
}

/// The word of a value with this mark, which nobody reads or writes.
pub(crate) fn idle(mark: u32) -> u64
    ensures { result ≡ 4294967296 * mark + 1 }
{
    mark as u64 * MARK + PRESENT
}

/// The mark of the word.
pub(crate) fn mark_of(word: u64) -> u32 {
    (word / MARK) as u32
}
