//! Keys and values that are numbers of four bytes.
use anyhow::Result;
use spl_message::{Bound, Key, Span, Value};
use std::alloc::Global;

/// It has no divisor in common with a number of keys that is a product of twos and fives.
const FACTOR: u64 = 61_803;

/// The keys with so many numbers from the first one on.
#[derive(Clone, Copy, Debug)]
pub(crate) struct Range {
    pub(crate) first: u32,
    pub(crate) count: u32,
}

/// The key of the number, with the highest byte first.
pub(crate) fn key_of(number: u32) -> Result<Key> {
    Ok(Key::read(&number.to_be_bytes())?)
}

/// The value of the number's key: its bytes with the lowest one first.
pub(crate) fn value_of(alloc: Global, number: u32) -> Result<Value> {
    Ok(Value::read(alloc, &number.to_le_bytes())?)
}

/// Whether these are the number's key and value.
pub(crate) fn is_pair_of(key: &Key, value: &Value, number: u32) -> bool {
    key.bytes() == number.to_be_bytes().as_slice()
        && value.bytes() == number.to_le_bytes().as_slice()
}

/// The number of the key that is put at this place. Each number below the count has one place.
pub(crate) fn number_at(place: u32, count: u32) -> u32 {
    let scrambled = u64::from(place).wrapping_mul(FACTOR) % u64::from(count.max(1));
    scrambled as u32
}

impl Range {
    /// The span of the keys.
    pub(crate) fn span(self) -> Result<Span> {
        Ok(Span {
            from: Some(key_of(self.first)?),
            to: Some(Bound::of(&key_of(self.first.saturating_add(self.count))?)),
        })
    }

    /// So many keys at this one of so many places, which are spread over all keys from the first to the last ones.
    pub(crate) fn spread(count: u32, place: u32, places: u32, all: u32) -> Range {
        let last = u64::from(all.saturating_sub(count));
        let first = u64::from(place).wrapping_mul(last)
            / u64::from(places.saturating_sub(1).max(1));
        Range {
            first: first.min(last) as u32,
            count,
        }
    }
}
