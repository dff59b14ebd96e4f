use super::*;
use spl_message::{Bound, Key, Message, Newest, Span, Value};
use std::alloc::Global;
use std::sync::Arc;
use std::test::Fail;

const EVERYTHING: Span = Span {
    from: None,
    to: None,
};

fn key(text: &str) -> Result<Key, Fail> {
    Ok(Key::read(text.as_bytes())?)
}

/// `=v` is an insert of v, `+v` an update by v, and anything else a delete.
fn message(alloc: Global, text: &str) -> Result<Message, Fail> {
    if let Some(value) = text.strip_prefix("=") {
        return Ok(Message::Insert(Value::read(alloc, value.as_bytes())?));
    }
    match text.strip_prefix("+") {
        Some(operand) => Ok(Message::Update(Value::read(alloc, operand.as_bytes())?)),
        None => Ok(Message::Delete),
    }
}

/// A memtable with the keys 0 to 1,023, of two bytes each, which are deleted.
fn filled(alloc: Global) -> Result<Memtable, Fail> {
    let mut memtable = Memtable::new(alloc);
    for number in 0..1024u16 {
        let key = Key::read(&number.to_be_bytes())?;
        if memtable.put(&Newest, &key, Message::Delete)? == Put::Full {
            break;
        }
    }
    Ok(memtable)
}

/// How many keys the slice has.
fn counted(slice: &Slice) -> u32 {
    let mut count = 0u32;
    for _ in slice.entries() {
        count = count.saturating_add(1);
    }
    count
}

#[test]
fn a_full_memtable_takes_messages_of_its_keys_alone(rt: HostRuntime) -> Result<(), Fail> {
    let alloc = rt.alloc();
    let mut memtable = filled(alloc)?;
    let present = Key::read(&[0, 7])?;
    let absent = Key::read(&[4, 0])?;
    assert_eq!(rt; memtable.keys(), 1024);
    let update = message(alloc, "+3")?;
    assert_eq!(rt; memtable.put(&Newest, &absent, update)?, Put::Full);
    assert_eq!(rt; memtable.get(&absent), None);
    let update = message(alloc, "+3")?;
    assert_eq!(rt; memtable.put(&Newest, &present, update)?, Put::Done);
    assert_eq!(rt; counted(&memtable.slice(&EVERYTHING)?), 1024);
    Ok(())
}

/// What threads may share.
fn shared<T: Send + Sync>(value: &T) -> &T {
    value
}

#[test]
fn freezing_keeps_what_is_there(rt: HostRuntime) -> Result<(), Fail> {
    let key = Key::read(&[0, 7])?;
    let frozen = Arc::new(rt.alloc(), filled(rt.alloc())?.freeze())?;
    assert_eq!(rt; frozen.keys(), 1024);
    assert_eq!(rt; shared(&frozen).get(&key), Some(&Message::Delete));
    let slice = frozen.slice(&EVERYTHING)?;
    drop(frozen);
    assert_eq!(rt; counted(shared(&slice)), 1024);
    assert_eq!(rt; slice.get(&key), Some(&Message::Delete));
    Ok(())
}

/// What a key has after two messages.
fn joined(alloc: Global, older: &str, newer: &str) -> Result<Option<Message>, Fail> {
    let key = key("a")?;
    let mut memtable = Memtable::new(alloc);
    memtable.put(&Newest, &key, message(alloc, older)?)?;
    memtable.put(&Newest, &key, message(alloc, newer)?)?;
    match memtable.get(&key) {
        Some(both) => Ok(Some(both.copy()?)),
        None => Ok(None),
    }
}

#[test]
fn a_later_message_joins_an_earlier_one(rt: HostRuntime) -> Result<(), Fail> {
    let alloc = rt.alloc();
    for (older, newer, both) in [
        ("=1", "-", "-"),
        ("-", "=2", "=2"),
        ("-", "+3", "=3"),
        ("+4", "+5", "+5"),
        ("=6", "+7", "=7"),
    ] {
        let found = joined(alloc, older, newer)?;
        assert_eq!(rt; found, Some(message(alloc, both)?));
    }
    Ok(())
}

/// The span from a key to another, where no text is an open side.
fn span(from: &str, to: &str) -> Span {
    Span {
        from: Key::read(from.as_bytes()).ok(),
        to: Key::read(to.as_bytes()).ok().map(|end| Bound::of(&end)),
    }
}

/// The bytes of the slice's keys, one after the other, where the slice finds each of them.
fn keys_of(alloc: Global, slice: &Slice) -> Result<Vec<u8>, Fail> {
    let mut bytes = Vec::new(alloc);
    for (key, _) in slice.entries() {
        if slice.get(key).is_some() {
            bytes.extend_from_slice(key.bytes())?;
        }
    }
    Ok(bytes)
}

#[test]
fn a_slice_has_the_keys_of_its_span(rt: HostRuntime) -> Result<(), Fail> {
    let alloc = rt.alloc();
    let mut memtable = Memtable::new(alloc);
    let mut same = Memtable::new(alloc);
    for text in ["c", "a", "d", "b"] {
        memtable.put(&Newest, &key(text)?, Message::Delete)?;
        same.put(&Newest, &key(text)?, Message::Delete)?;
    }
    let frozen = Arc::new(alloc, same.freeze())?;
    for (from, to, keys) in [
        ("", "", "abcd"),
        ("b", "", "bcd"),
        ("bb", "", "cd"),
        ("", "b", "a"),
        ("b", "b\0", "b"),
        ("a", "bb", "ab"),
        ("b", "b", ""),
        ("c", "b", ""),
    ] {
        let span = span(from, to);
        for slice in [memtable.slice(&span)?, frozen.slice(&span)?] {
            assert_eq!(rt; keys_of(alloc, &slice)?.as_slice(), keys.as_bytes());
            assert_eq!(rt; slice.get(&key("0")?), None);
        }
    }
    Ok(())
}
