//! The fingerprints that a filter is built of, and where they lie.
ghost use Rattle.std.specs.Prelude.{◌≡◌, ℕ, ◌+◌, ◌/◌, ◌^◌, ◌≤◌, ◌<◌, ◌↔◌, length, map, All, Contains, IfOk, slice_index, vec_len};
ghost use Rattle.std.specs.List.Sorted.{IsStrictlyIncreasing};
ghost use Rattle.spl_quotient.specs.Fnv.{print_of, fingerprint_of};
ghost use Rattle.spl_quotient.specs.Spot.{spot_of};

use crate::hash::{fingerprint, top_bits};
use spl_message::{Key, NoMemory};
use std::alloc::Global;

/// What a fingerprint is multiplied by: 2^64 divided by the golden ratio, as an odd number.
const SCATTER: u64 = 0x9e3779b97f4a7c15;

/// Where the fingerprint lies: the quotient of its spot is its slot, and the remainder lies there. Fingerprints of keys
/// that are counted up follow each other, and their spots lie far apart.
pub(crate) fn spot_of(print: u64, q: u32) -> u64
    requires { q ≤ 52 }
    ensures value { result ≡ spot_of q print }
    ensures bits { result < 2 ^ (q + 12) }
{
    print.wrapping_mul(SCATTER) & (u64::MAX >> (52 - q))
}

/// The spots of the keys' fingerprints, in the order of the keys.
pub(crate) fn spots_of_keys(alloc: Global, keys: &[Key], q: u32) -> Result<Vec<u64>, NoMemory>
    requires { q ≤ 52 }
    ensures { IfOk result (λ spots. spots.items ≡ map (λ key. spot_of q (fingerprint_of q key)) keys.now) }
{
    let spots = keys
        .iter()
        .map(|key| spot_of(fingerprint(key, q), q))
        .collect(alloc)?;
    Ok(spots)
}

/// The spots of the fingerprints of keys with these hashes, in the order of the hashes.
pub(crate) fn spots_of_hashes(alloc: Global, hashes: &[u64], q: u32) -> Result<Vec<u64>, NoMemory>
    requires { q ≤ 52 }
    ensures { IfOk result (λ spots. spots.items ≡ map (λ hash. spot_of q (print_of q hash)) hashes.now) }
{
    let spots = hashes
        .iter()
        .map(|hash| spot_of(top_bits(*hash, q), q))
        .collect(alloc)?;
    Ok(spots)
}

/// The spots in order, each once.
pub(crate) fn in_order(mut spots: Vec<u64>) -> Vec<u64>
    ensures sorted { IsStrictlyIncreasing result.items }
    ensures count { vec_len result ≤ vec_len spots }
    ensures members { (spot : ℕ) → Contains result.items spot ↔ Contains spots.items spot }
{
    spots.sort_unstable();
    spots.dedup();
    spots
}

/// The place of the spot whose quotient is the farthest ahead of its place. No run of the spots before it reaches the
/// slot of its quotient, even around the end of the table.
pub(crate) fn farthest_ahead(spots: &[u64]) -> usize
    ensures within { 0 < length spots.now → result < length spots.now }
    ensures farthest { (k : ℕ) → k < length spots.now
        → slice_index spots.now k / 2 ^ 12 + result ≤ slice_index spots.now result / 2 ^ 12 + k }
{
    let mut farthest = 0;
    for i in 0..spots.len() {
        if spots[farthest] / 4096 + (i as u64) < spots[i] / 4096 + farthest as u64 {
            farthest = i;
        }
    }
    farthest
}
