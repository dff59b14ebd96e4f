ghost use Rattle.std.specs.Prelude.{◌≤◌, length};

use super::tests::page;
use super::*;
use spl_message::{Key, Message, Value};
use spl_port::{At, PageBytes};
use std::alloc::Global;
use std::test::Fail;

/// Page 1 of branch 7, where a leaf page is wanted.
const LEAF: At = At {
    extent: 0,
    branch: 7,
    page: 1,
    leaf: true,
};

/// The leaf page inserts `1` at `b`, deletes `d`, and updates `f` with `2`.
const MESSAGES: &[u8] =
    b"L\x01\x00\x03\x00\x00\x00\x01\x00\x00\x00\x00\x00\x00\x00\x07\x01\x00\x00\x01b1\x01\x01\x00\x00d\x01\x02\x00\x01f2";

/// Page 6 of branch 7, where an index page is wanted.
const INDEX: At = At {
    extent: 0,
    branch: 7,
    page: 6,
    leaf: false,
};

/// The index page is over the pages 1 from `b` on, 3 from `d` on, and 5 from `f` on.
const CHILDREN: &[u8] =
    b"I\x01\x00\x03\x00\x00\x00\x06\x00\x00\x00\x00\x00\x00\x00\x07\x00\x00\x00\x01\x01b\x00\x00\x00\x03\x01d\x00\x00\x00\x05\x01f";

/// The page that the text is at the place, which is there what was asked for.
fn sound(alloc: Global, text: &[u8], at: At) -> Result<AnyPage, Fail>
    requires { length text.now ≤ 4096 }
{
    let bytes = page(text);
    let page = AnyPage::check(alloc, PageBytes::copy(alloc, &bytes)?, at)?;
    if page.at() != at || *page.bytes() != bytes {
        return Err("another page".into());
    }
    Ok(page)
}

/// What is lent, in memory of its own.
fn copied(alloc: Global, found: Option<LentMessage<'_>>) -> Result<Option<Message>, Fail> {
    match found {
        Some(message) => Ok(Some(message.copy(alloc)?)),
        None => Ok(None),
    }
}

#[test]
fn a_message_is_found_at_its_key_alone(rt: HostRuntime) -> Result<(), Fail> {
    let alloc = rt.alloc();
    let AnyPage::Leaf(page) = sound(alloc, MESSAGES, LEAF)? else {
        return Err("an index page".into());
    };
    let insert = Message::Insert(Value::read(alloc, b"1")?);
    let update = Message::Update(Value::read(alloc, b"2")?);
    let cases = [
        (b'a', 0, None),
        (b'b', 0, Some(insert)),
        (b'c', 1, None),
        (b'd', 1, Some(Message::Delete)),
        (b'e', 2, None),
        (b'f', 2, Some(update)),
        (b'g', 3, None),
    ];
    assert_eq!(rt; page.len(), 3);
    for (byte, place, message) in cases {
        let key = Key::read(&[byte])?;
        assert_eq!(rt; page.seek(&key), place);
        assert_eq!(rt; copied(alloc, page.find(&key))?, message);
        if let Some(entry) = page.entry(page.seek(&key)) {
            assert!(rt; entry.key >= key.bytes());
        }
    }
    Ok(())
}

#[test]
fn a_child_has_the_keys_from_its_first_key_on(rt: HostRuntime) -> Result<(), Fail> {
    let alloc = rt.alloc();
    let AnyPage::Index(page) = sound(alloc, CHILDREN, INDEX)? else {
        return Err("a leaf page".into());
    };
    let cases = [
        (b'a', None),
        (b'b', Some(1)),
        (b'c', Some(1)),
        (b'd', Some(3)),
        (b'e', Some(3)),
        (b'f', Some(5)),
        (b'g', Some(5)),
    ];
    for (byte, child) in cases {
        assert_eq!(rt; page.child(&Key::read(&[byte])?), child);
    }
    Ok(())
}
