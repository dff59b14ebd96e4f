ghost use Rattle.std.specs.Prelude.{◌≡◌, ℕ, ◌+◌, ◌*◌, ◌/◌, ◌^◌, ◌≤◌, ◌<◌, ◌↔◌, length, map, All, Contains, IsTrue, IfOk, slice_index, vec_len};
ghost use Rattle.std.specs.List.Sorted.{IsStrictlyIncreasing};
ghost use Rattle.spl_quotient.specs.Fnv.{print_of, fingerprint_of};
ghost use Rattle.spl_quotient.specs.Exponent.{IsExponent};
ghost use Rattle.spl_quotient.specs.Spot.{spot_of};
ghost use Rattle.spl_quotient.specs.Table.{IsLaid, spots_in};

use crate::find::has;
use crate::hash::top_bits;
use crate::lay::lay;
use crate::prints::{farthest_ahead, in_order, spot_of, spots_of_hashes, spots_of_keys};
use crate::table::Table;
use spl_message::{Key, NoMemory, fnv};
use std::alloc::Global;
use std::marker::Model;

/// A quotient filter: which fingerprints the keys that it was built of have.
///
/// It takes two bytes a slot, and two to four slots a key, at least 64 in all. It is never wrong about a key of the
/// build; of other keys it admits those that share a fingerprint with one. That is at most about one in 8,192 where
/// hashes are spread evenly, and more among keys that differ in their last bytes alone.
#[derive(Debug, Drop)]
pub struct Filter {
    table: Table,
    q: u32,
}

impl Model for Filter {
    ghost use Rattle.spl_quotient.specs.Filter.{Filter as Shown, shown, IsSound};

    ghost Value = { Shown };

    ghost view = { shown };

    ghost invariant = { IsSound };
}

impl Filter {
    /// The filter of these keys, which may come in any order, and more than once.
    pub fn build(alloc: Global, keys: &[Key]) -> Result<Filter, NoMemory>
        requires { length keys.now ≤ 2 ^ 51 }
        ensures exponent { IfOk result (λ filter. IsExponent (length keys.now) filter.q) }
        ensures prints { IfOk result (λ filter. (print : ℕ)
            → Contains filter.prints print ↔ Contains (map (fingerprint_of filter.q) keys.now) print) }

        // So no key of the build is missed.
        ensures keys { IfOk result (λ filter. All (λ key. Contains filter.prints (fingerprint_of filter.q key)) keys.now) }
    {
        let q = exponent_of(keys.len());
        let spots = spots_of_keys(alloc, keys, q)?;
        filter_of(alloc, spots, q)
    }

    /// The filter of the keys with these hashes, which may come in any order, and more than once.
    pub fn of_hashes(alloc: Global, hashes: &[u64]) -> Result<Filter, NoMemory>
        requires { length hashes.now ≤ 2 ^ 51 }
        ensures exponent { IfOk result (λ filter. IsExponent (length hashes.now) filter.q) }
        ensures prints { IfOk result (λ filter. (print : ℕ)
            → Contains filter.prints print ↔ Contains (map (print_of filter.q) hashes.now) print) }
    {
        let q = exponent_of(hashes.len());
        let spots = spots_of_hashes(alloc, hashes, q)?;
        filter_of(alloc, spots, q)
    }

    /// The exponent: the filter has 2^q slots, and its fingerprints have q + 12 bits.
    pub fn q(&self) -> u32
        ensures value { result ≡ self.now.q }
        ensures most { result ≤ 52 }
    {
        self.q
    }

    /// Whether some key of the build has the fingerprint of the key.
    #[tactic(auto, unfolding(crate::specs::Fnv::fingerprint_of))]
    pub fn admits(&self, key: &Key) -> bool
        ensures { IsTrue result ↔ Contains self.now.prints (fingerprint_of self.now.q key.now) }
    {
        self.admits_hash(fnv(key.bytes()))
    }

    /// Whether some key of the build has the fingerprint that is cut from the hash.
    pub fn admits_hash(&self, hash: u64) -> bool
        ensures { IsTrue result ↔ Contains self.now.prints (print_of self.now.q hash) }
    {
        let spot = spot_of(top_bits(hash, self.q), self.q);
        let home = self.table.position_of((spot / 4096) as usize);
        has(&self.table, home, (spot % 4096) as u16)
    }
}

/// The filter of the fingerprints with these spots.
fn filter_of(alloc: Global, spots: Vec<u64>, q: u32) -> Result<Filter, NoMemory>
    requires least { 6 ≤ q }
    requires most { q ≤ 52 }
    requires bits { All (λ spot. spot < 2 ^ (q + 12)) spots.items }
    requires count { vec_len spots ≤ 2 ^ q }
    ensures exponent { IfOk result (λ filter. filter.q ≡ q) }
    ensures prints { IfOk result (λ filter. (print : ℕ)
        → Contains filter.prints print ↔ ((print < 2 ^ (q + 12)) × Contains spots.items (spot_of q print))) }
{
    let spots = in_order(spots);
    let table = table_of(alloc, spots.as_slice(), q)?;
    Ok(Filter { table, q })
}

/// The exponent of a filter over so many keys.
fn exponent_of(count: usize) -> u32
    requires { count ≤ 2 ^ 51 }
    ensures exponent { IsExponent count result }
    ensures most { result ≤ 52 }
{
    let mut q = 6;
    while slot_count(q) < 2 * count {
        q += 1;
    }
    q
}

/// How many slots a filter has.
fn slot_count(q: u32) -> usize
    requires { q ≤ 52 }
    ensures { result ≡ 2 ^ q }
{
    1 << q
}

/// The quotient of the spot at the place, if there are any.
fn quotient_at(spots: &[u64], place: usize) -> usize
    requires { 0 < length spots.now → place < length spots.now }
    ensures some { 0 < length spots.now → result ≡ slice_index spots.now place / 2 ^ 12 }
    ensures none { length spots.now ≡ 0 → result ≡ 0 }
{
    if spots.is_empty() {
        0
    } else {
        (spots[place] / 4096) as usize
    }
}

/// The table of these spots.
fn table_of(alloc: Global, spots: &[u64], q: u32) -> Result<Table, NoMemory>
    requires most { q ≤ 52 }
    requires sorted { IsStrictlyIncreasing spots.now }
    requires bits { All (λ spot. spot < 2 ^ (q + 12)) spots.now }
    requires count { length spots.now ≤ 2 ^ q }
    ensures laid { IfOk result (λ table. IsLaid table.slots) }
    ensures len { IfOk result (λ table. length table.slots ≡ 2 ^ q) }
    ensures spots { IfOk result (λ table. (spot : ℕ)
        → Contains (spots_in q table) spot ↔ Contains spots.now spot) }
{
    let first = farthest_ahead(spots);
    let mut table = Table::new(alloc, slot_count(q), quotient_at(spots, first))?;
    lay(&mut table, spots, first);
    Ok(table)
}
