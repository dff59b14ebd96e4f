//! The hash of keys, by which filters know them.
ghost use Rattle.std.specs.Prelude.{◌≡◌, ◌<◌, ◌^◌};
ghost use Rattle.spl_message.specs.Fnv.{fnv_of};

use crate::key::Key;
use std::marker::Model;

/// The hash of no bytes.
const OFFSET_BASIS: u64 = 0xcbf29ce484222325;

/// What the hash is multiplied by at each byte.
const PRIME: u64 = 0x100000001b3;

/// FNV-1a with 64 bits (Fowler, Noll, Vo).
#[tactic(auto, unfolding(crate::specs::Fnv::fnv_of))]
pub fn fnv(bytes: &[u8]) -> u64
    ensures value { result ≡ fnv_of bytes.now }
    ensures bits { result < 2 ^ 64 }
{
    bytes.iter().fold(
        OFFSET_BASIS,
        |hash, byte| (hash ^ u64::from(*byte)).wrapping_mul(PRIME),
    )
}

/// A key with its hash, so that a lookup hashes its key once for all the filters that it asks. A clause sees the key.
#[derive(Debug, Drop)]
pub struct HashedKey {
    key: Key,
    hash: u64,
}

impl Model for HashedKey {
    ghost use Rattle.std.specs.Prelude.{◌≡◌, ℕ, List};
    ghost use Rattle.spl_message.specs.Fnv.{fnv_of};

    ghost Value = { List ℕ };

    ghost view = { λ k. k.key };

    ghost invariant = { λ k. k.hash ≡ fnv_of k.key };
}

impl HashedKey {
    /// The key, hashed.
    pub fn of(key: &Key) -> HashedKey
        ensures { result ≡ key.now }
    {
        HashedKey {
            key: *key,
            hash: fnv(key.bytes()),
        }
    }

    /// The key.
    pub fn key(&self) -> &Key
        ensures { result.now ≡ self.now }
    {
        &self.key
    }

    /// Its hash.
    pub fn hash(&self) -> u64
        ensures value { result ≡ fnv_of self.now }
        ensures bits { result < 2 ^ 64 }
    {
        self.hash
    }
}
