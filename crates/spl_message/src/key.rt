ghost use Rattle.std.specs.Prelude.{◌≡◌, ◌<◌, ◌≤◌, ◌↔◌, length, Some, IsOk, IfOk, nat_eq, refl};
ghost use Rattle.std.specs.Ordering.{nat_cmp};
ghost use Rattle.std.specs.Cmp.{on_equiv, on_total, on_po, on_per, partial_equiv_from_equiv};
ghost use Rattle.std.specs.Cmp.Lexicographic.{pointwise, slice_cmp, nat_list_eq_equiv, nat_list_cmp_total, texts_po, texts_ties};
ghost use Rattle.spl_message.specs.Key.{IsKey};

use crate::room::{compare, front, room_of};
use std::cmp::Ordering;
use std::error::Error;
use std::fmt;
use std::marker::Model;

/// The greatest number of bytes of a key.
pub const KEY_LIMIT: usize = 64;

/// A key: 1 to 64 bytes. Keys are ordered by their bytes as unsigned numbers from the left, and a proper prefix is
/// less. A clause sees the list of the bytes.
///
/// The bytes stand in the value itself, so reading, copying and comparing a key take no memory.
#[derive(Clone, Copy, Debug)]
pub struct Key {
    room: [u8; KEY_LIMIT],
    len: u8,
}

impl Model for Key {
    ghost use Rattle.std.specs.Prelude.{◌≡◌, ◌-◌, ◌<◌, ◌≤◌, ◌++◌, ℕ, List, length, take, drop, replicate};
    ghost use Rattle.spl_message.specs.Room.{padded, padded_again, length_again};

    ghost Value = { List ℕ };

    ghost view = { λ k. take k.len k.room };

    ghost invariant = { λ k. (0 < k.len) × (k.len ≤ 64) × (length k.room ≡ 64) × (drop k.len k.room ≡ replicate (64 - k.len) 0) };

    ghost inverse = { λ bytes. record { room = padded 64 bytes; len = length bytes } };

    ghost inverse_ok = { λ k h i. record {
      room = padded_again 64 k.room k.len h.1 h.2 h.3 i;
      len = length_again 64 k.room k.len h.1 h.2 i;
    } };
}

/// Why bytes are no key.
#[derive(Clone, Copy, Debug, PartialEq, Eq)]
pub enum KeyFault {
    /// There are none.
    Empty,
    /// There are more than 64.
    Long { len: u64 },
}

impl fmt::Display for KeyFault {
    fn fmt<W: fmt::Write>(&self, f: &mut fmt::Formatter<W>) -> fmt::Result {
        match self {
            KeyFault::Empty => write!(f, "a key has at least one byte"),
            KeyFault::Long { len } => write!(f, "a key has at most 64 bytes, and here are {len}"),
        }
    }
}

impl Error for KeyFault {}

impl Key {
    /// The key of these bytes.
    pub fn read(bytes: &[u8]) -> Result<Key, KeyFault>
        ensures ok { IfOk result (λ key. key ≡ bytes.now) }
        ensures accepted { IsOk result ↔ ((0 < length bytes.now) × (length bytes.now ≤ 64)) }
        ensures empty { length bytes.now ≡ 0 → result ≡ Err KeyFault.Empty }
        ensures long { 64 < length bytes.now → result ≡ Err (KeyFault.Long (length bytes.now)) }
    {
        let len = bytes.len();
        if len == 0 {
            return Err(KeyFault::Empty);
        }
        if len > KEY_LIMIT {
            return Err(KeyFault::Long { len: len as u64 });
        }
        Ok(Key {
            room: room_of::<KEY_LIMIT>(bytes),
            len: len as u8,
        })
    }

    /// The bytes.
    pub fn bytes(&self) -> &[u8]
        ensures value { result.now ≡ self.now }
        ensures is_key { IsKey self.now }
    {
        front(&self.room, self.len as usize)
    }

    /// How the bytes compare to the other's.
    #[inline]
    fn compare(&self, other: &Key) -> Ordering
        ensures { result ≡ slice_cmp nat_cmp self.now other.now }
    {
        compare(&self.room, self.len, &other.room, other.len)
    }
}

impl PartialEq for Key {
    ghost eq = { pointwise nat_eq };

    ghost laws = { partial_equiv_from_equiv nat_list_eq_equiv };

    fn eq(&self, other: &Key) -> bool {
        self.compare(other).is_eq()
    }
}

impl Eq for Key {
    ghost laws = { nat_list_eq_equiv };
}

impl PartialOrd for Key {
    ghost partial_cmp = { λ a b. Some (slice_cmp nat_cmp a b) };

    ghost laws = { texts_po };

    fn partial_cmp(&self, other: &Key) -> Option<Ordering> {
        Some(self.cmp(other))
    }
}

impl Ord for Key {
    ghost cmp = { slice_cmp nat_cmp };

    ghost total = { nat_list_cmp_total };

    ghost matches_partial_cmp = { λ a b. refl };

    ghost matches_eq = { texts_ties };

    fn cmp(&self, other: &Key) -> Ordering {
        self.compare(other)
    }
}
