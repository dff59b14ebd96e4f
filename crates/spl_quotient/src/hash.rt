//! The fingerprint that is cut from the hash of a key.
ghost use Rattle.std.specs.Prelude.{◌≡◌, ◌≤◌, ◌<◌, ◌^◌, ◌+◌};
ghost use Rattle.spl_quotient.specs.Fnv.{print_of, fingerprint_of};

use spl_message::{Key, fnv};

/// The top `q + 12` bits of a hash.
pub(crate) fn top_bits(hash: u64, q: u32) -> u64
    requires { q ≤ 52 }
    ensures value { result ≡ print_of q hash }
    ensures bits { result < 2 ^ (q + 12) }
{
    hash >> (52 - q)
}

/// The top `q + 12` bits of the key's hash.
#[tactic(auto, unfolding(crate::specs::Fnv::fingerprint_of))]
pub fn fingerprint(key: &Key, q: u32) -> u64
    requires { q ≤ 52 }
    ensures value { result ≡ fingerprint_of q key.now }
    ensures bits { result < 2 ^ (q + 12) }
{
    top_bits(fnv(key.bytes()), q)
}
