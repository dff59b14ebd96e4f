ghost use Rattle.std.specs.Prelude.{◌≡◌, ◌<◌, ◌/◌, ◌↔◌, length, slice_index, true, false, IsTrue};
ghost use Rattle.spl_numbers.specs.Bits.{bit, ChangesBit};

/// Sets a bit of the words, of which each has 64.
pub fn set_bit(words: &mut [u64], at: usize)
    requires { at / 64 < length words.old }
    ensures { ChangesBit words.old words.new at true }
{
    let word = &mut words[at / 64];
    *word |= 1 << (at % 64);
}

/// Clears a bit of the words, and says whether its word is now 0.
pub fn clear_bit(words: &mut [u64], at: usize) -> bool
    requires { at / 64 < length words.old }
    ensures cleared { ChangesBit words.old words.new at false }
    ensures empty { IsTrue result ↔ (slice_index words.new (at / 64) ≡ 0) }
{
    let word = &mut words[at / 64];
    *word &= !(1 << (at % 64));
    *word == 0
}

/// Whether the bit is set.
pub fn has_bit(words: &[u64], at: usize) -> bool
    requires { at / 64 < length words.now }
    ensures { result ≡ bit words.now at }
{
    (words[at / 64] >> (at % 64)) & 1 == 1
}
