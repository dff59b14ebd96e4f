ghost use Rattle.std.specs.Prelude.{◌≡◌, ◌↔◌, [], ◌∷◌, ◌++◌, length, Some, IsNone, IfSome, nat_eq, refl};
ghost use Rattle.std.specs.Ordering.{nat_cmp};
ghost use Rattle.std.specs.Cmp.{partial_equiv_from_equiv};
ghost use Rattle.std.specs.Cmp.Lexicographic.{pointwise, slice_cmp, nat_list_eq_equiv, nat_list_cmp_total, texts_po, texts_ties};
ghost use Rattle.spl_message.specs.Bound.{IsBound, IsLeastAbove};
ghost use Rattle.spl_message.specs.Key.{is_below};

use crate::key::Key;
use crate::room::{compare, front, room_of};
use std::cmp::Ordering;
use std::marker::Model;

/// The greatest number of bytes of a bound.
pub const BOUND_LIMIT: usize = 65;

/// An exclusive upper bound of keys: 1 to 65 bytes, ordered by their bytes as keys are. A clause sees the list of the
/// bytes.
///
/// The bytes are stored inline, so making, copying and comparing a bound take no memory.
#[derive(Clone, Copy, Debug)]
pub struct Bound {
    room: [u8; BOUND_LIMIT],
    len: u8,
}

impl Model for Bound {
    ghost use Rattle.std.specs.Prelude.{◌≡◌, ◌-◌, ◌<◌, ◌≤◌, ◌++◌, ℕ, List, length, take, drop, replicate};
    ghost use Rattle.spl_message.specs.Room.{padded, padded_again, length_again};

    ghost Value = { List ℕ };

    ghost view = { λ b. take b.len b.room };

    ghost invariant = { λ b. (0 < b.len) × (b.len ≤ 65) × (length b.room ≡ 65) × (drop b.len b.room ≡ replicate (65 - b.len) 0) };

    ghost inverse = { λ bytes. record { room = padded 65 bytes; len = length bytes } };

    ghost inverse_ok = { λ b h i. record {
      room = padded_again 65 b.room b.len h.1 h.2 h.3 i;
      len = length_again 65 b.room b.len h.1 h.2 i;
    } };
}

impl Bound {
    /// The bound at the key, with its bytes: the key is not below it.
    pub fn of(key: &Key) -> Bound
        ensures { result ≡ key.now }
    {
        let bytes = key.bytes();
        Bound {
            room: room_of::<BOUND_LIMIT>(bytes),
            len: bytes.len() as u8,
        }
    }

    /// The least bound above the key: its bytes and one zero byte.
    pub fn after(key: &Key) -> Bound
        ensures value { result ≡ key.now ++ 0 ∷ [] }
        ensures least { IsLeastAbove key.now result }
    {
        let bytes = key.bytes();
        let after = room_of::<BOUND_LIMIT>(bytes);
        Bound {
            room: after,
            len: bytes.len() as u8 + 1,
        }
    }

    /// The key with these bytes, which is missing exactly where there are 65.
    pub fn key(&self) -> Option<Key>
        ensures long { IsNone result ↔ (length self.now ≡ 65) }
        ensures value { IfSome result (λ key. key ≡ self.now) }
    {
        Key::read(self.bytes()).ok()
    }

    /// Whether the key is below the bound.
    pub fn is_above(&self, key: &Key) -> bool
        ensures { result ≡ is_below key.now self.now }
    {
        key.bytes().cmp(&self.bytes()) == Ordering::Less
    }

    /// The bytes.
    pub fn bytes(&self) -> &[u8]
        ensures value { result.now ≡ self.now }
        ensures is_bound { IsBound self.now }
    {
        front(&self.room, self.len as usize)
    }

    /// How the bytes compare to the other's.
    #[inline]
    fn compare(&self, other: &Bound) -> Ordering
        ensures { result ≡ slice_cmp nat_cmp self.now other.now }
    {
        compare(&self.room, self.len, &other.room, other.len)
    }
}

impl PartialEq for Bound {
    ghost eq = { pointwise nat_eq };

    ghost laws = { partial_equiv_from_equiv nat_list_eq_equiv };

    fn eq(&self, other: &Bound) -> bool {
        self.compare(other).is_eq()
    }
}

impl Eq for Bound {
    ghost laws = { nat_list_eq_equiv };
}

impl PartialOrd for Bound {
    ghost partial_cmp = { λ a b. Some (slice_cmp nat_cmp a b) };

    ghost laws = { texts_po };

    fn partial_cmp(&self, other: &Bound) -> Option<Ordering> {
        Some(self.cmp(other))
    }
}

impl Ord for Bound {
    ghost cmp = { slice_cmp nat_cmp };

    ghost total = { nat_list_cmp_total };

    ghost matches_partial_cmp = { λ a b. refl };

    ghost matches_eq = { texts_ties };

    fn cmp(&self, other: &Bound) -> Ordering {
        self.compare(other)
    }
}
