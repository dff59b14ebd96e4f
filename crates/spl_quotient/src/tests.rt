use crate::{Filter, fingerprint, fnv};
use spl_message::Key;
use std::ops::Range;
use std::process::Abort;

fn key(rt: &impl Abort, bytes: &[u8]) -> Key {
    Key::read(bytes).expect(rt, "a key")
}

#[test]
fn known_texts_have_their_hashes(rt: HostRuntime) {
    assert_eq!(rt; fnv(b""), 0xcbf29ce484222325);
    assert_eq!(rt; fnv(b"a"), 0xaf63dc4c8601ec8c);
    assert_eq!(rt; fnv(b"foobar"), 0x85944171f73967e8);
    let print = fingerprint(&key(&rt, b"a"), 6);
    assert_eq!(rt; print, 179_599);
    assert_eq!(rt; (print / 4096, print % 4096), (43, 3471));
}

#[test]
fn a_filter_admits_its_key_and_what_shares_its_fingerprint(rt: HostRuntime) {
    let filter = Filter::build(rt.alloc(), &[key(&rt, b"a")]).expect(&rt, "memory");
    assert_eq!(rt; filter.q(), 6);
    assert!(rt; filter.admits(&key(&rt, b"a")));
    assert!(rt; filter.admits(&key(&rt, b"b")));
    assert!(rt; !filter.admits(&key(&rt, b"foobar")));
}

#[test]
fn a_filter_over_no_keys_admits_nothing(rt: HostRuntime) {
    let filter = Filter::build(rt.alloc(), &[]).expect(&rt, "memory");
    assert_eq!(rt; filter.q(), 6);
    assert!(rt; !filter.admits(&key(&rt, b"a")));
}

#[test]
fn the_exponent_grows_with_the_keys(rt: HostRuntime) {
    for (count, q) in [(32u16, 6), (33, 7), (1024, 11)] {
        let mut keys = Vec::new(rt.alloc());
        for number in 0..count {
            keys.push(key(&rt, &number.to_be_bytes()))
                .expect(&rt, "memory");
        }
        assert!(rt; keys.len() <= 1024);
        let filter = Filter::build(rt.alloc(), keys.as_slice()).expect(&rt, "memory");
        assert_eq!(rt; filter.q(), q);
        for key in &keys {
            assert!(rt; filter.admits(key));
        }
    }
}

/// `k` and the number in six decimal digits.
fn decimal_key(rt: &impl Abort, number: u32) -> Key {
    let mut bytes = [b'k'; 7];
    let mut left = number;
    for place in 0..6usize {
        bytes[6 - place] = b'0' + (left % 10) as u8;
        left /= 10;
    }
    key(rt, &bytes)
}

/// The key of this number, counted up: in decimal, or in four bytes with the highest first.
fn counted_key(rt: &impl Abort, number: u32, is_decimal: bool) -> Key {
    if is_decimal {
        decimal_key(rt, number)
    } else {
        key(rt, &number.to_be_bytes())
    }
}

/// How many of these lookups, over the keys in turn, the filter admits.
fn lookups(filter: &Filter, keys: &[Key], rounds: u32) -> u32 {
    let mut admitted = 0u32;
    for _ in 0..rounds {
        for key in keys {
            if filter.admits(key) {
                admitted = admitted.saturating_add(1);
            }
        }
    }
    admitted
}

#[test]
fn keys_that_are_counted_up_are_found_quickly(rt: HostRuntime) {
    for is_decimal in [true, false] {
        let mut keys = Vec::new(rt.alloc());
        for number in 0..1024u32 {
            keys.push(counted_key(&rt, number, is_decimal))
                .expect(&rt, "memory");
        }
        assert!(rt; keys.len() <= 1024);
        let filter = Filter::build(rt.alloc(), keys.as_slice()).expect(&rt, "memory");
        assert_eq!(rt; filter.q(), 11);
        assert_eq!(rt; lookups(&filter, keys.as_slice(), 100), 102_400);
    }
}

/// A key for each number, with bytes that differ all over.
fn spread_key(rt: &impl Abort, number: u64) -> Key {
    let spread = number.wrapping_mul(0x9e3779b97f4a7c15);
    key(rt, &spread.to_le_bytes())
}

/// How many of the keys of these numbers the filter admits.
fn admitted(rt: &impl Abort, filter: &Filter, numbers: Range<u64>) -> u32 {
    let mut admitted = 0u32;
    for number in numbers {
        if filter.admits(&spread_key(rt, number)) {
            admitted = admitted.saturating_add(1);
        }
    }
    admitted
}

// With 30 bits a fingerprint, 200,000 absent keys share one with some of 100,000 keys about 19 times.
#[test]
fn few_absent_keys_are_admitted(rt: HostRuntime) {
    let mut hashes = Vec::new(rt.alloc());
    for number in 0..100_000 {
        let hash = fnv(spread_key(&rt, number).bytes());
        hashes.push(hash).expect(&rt, "memory");
    }
    assert_eq!(rt; hashes.len(), 100_000);
    let filter = Filter::of_hashes(rt.alloc(), hashes.as_slice()).expect(&rt, "memory");
    assert_eq!(rt; filter.q(), 18);
    assert_eq!(rt; admitted(&rt, &filter, 0..100_000), 100_000);
    let absent = admitted(&rt, &filter, 100_000..300_000);
    assert!(rt; absent < 60, "{absent} absent keys are admitted");
}
