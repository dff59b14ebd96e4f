ghost use Rattle.std.specs.Prelude.{◌≤◌, length};

use super::*;
use spl_message::{Key, Message, Value};
use spl_port::{At, Damaged, PageBytes, Why};
use std::alloc::Global;
use std::test::Fail;

/// Page 0 of branch 7, where a leaf page is wanted.
const LEAF: At = At {
    extent: 0,
    branch: 7,
    page: 0,
    leaf: true,
};

/// The leaf page inserts `1` at `a`.
const ONE: &[u8] =
    b"L\x01\x00\x01\x00\x00\x00\x00\x00\x00\x00\x00\x00\x00\x00\x07\x01\x00\x00\x01a1";

/// Page 2 of branch 7, where an index page is wanted.
const INDEX: At = At {
    extent: 0,
    branch: 7,
    page: 2,
    leaf: false,
};

/// The index page is over the pages 0 from `a` on, and 1 from `b` on.
const TWO: &[u8] =
    b"I\x01\x00\x02\x00\x00\x00\x02\x00\x00\x00\x00\x00\x00\x00\x07\x00\x00\x00\x00\x01a\x00\x00\x00\x01\x01b";

/// The text, with zeros behind it.
pub(super) fn page(text: &[u8]) -> [u8; 4096]
    requires { length text.now ≤ 4096 }
{
    let mut bytes = [0; 4096];
    let len = text.len();
    let front = &mut bytes[..len];
    front.copy_from_slice(text);
    bytes
}

/// A page with the one entry, as a list.
fn one_listed(alloc: Global, key: &Key, message: &Message) -> Result<PageBytes, Fail> {
    let mut page = LeafPage::new(alloc);
    if !page.fits(key, message) {
        return Err("no room".into());
    }
    page.push(key, message)?;
    Ok(page.write(LEAF)?)
}

/// A page with the one entry, by a writer.
fn one_written(alloc: Global, key: &Key, message: &Message) -> Result<PageBytes, Fail> {
    let mut page = LeafWriter::new(alloc);
    if page.len() != 0 || !page.fits(key, message) {
        return Err("no room".into());
    }
    page.push(key, message)?;
    Ok(page.finish(LEAF)?)
}

#[test]
fn a_leaf_page_is_written_and_read_again(rt: HostRuntime) -> Result<(), Fail> {
    let alloc = rt.alloc();
    let key = Key::read(b"a")?;
    let message = Message::Insert(Value::read(alloc, b"1")?);
    assert!(rt; *one_written(alloc, &key, &message)?.bytes() == page(ONE));
    assert!(rt; *one_listed(alloc, &key, &message)?.bytes() == page(ONE));
    let list = LeafPage::read(alloc, &page(ONE), LEAF)?;
    assert!(rt; list.entries() == [LeafEntry { key, message }].as_slice());
    let at = At { branch: 8, ..LEAF };
    let fault = LeafPage::read(alloc, &page(ONE), at).err();
    let why = Why::Number;
    assert_eq!(rt; fault, Some(PageFault::Damaged(Damaged { at, why })));
    Ok(())
}

/// A page over two pages with these first keys, as a list.
fn two_listed(alloc: Global, a: &Key, b: &Key) -> Result<PageBytes, Fail> {
    let mut page = IndexPage::new(alloc);
    if !page.fits(a) {
        return Err("no room".into());
    }
    page.push(0, a)?;
    if *a >= *b || !page.fits(b) {
        return Err("no room above it".into());
    }
    page.push(1, b)?;
    Ok(page.write(INDEX)?)
}

/// A page over a page with this first key, by a writer.
fn child_written(alloc: Global, first: &Key) -> Result<PageBytes, Fail> {
    let mut page = IndexWriter::new(alloc);
    if page.len() != 0 || !page.fits(first) {
        return Err("no room".into());
    }
    page.push(1, first)?;
    Ok(page.finish(INDEX)?)
}

#[test]
fn an_index_page_is_written_and_read_again(rt: HostRuntime) -> Result<(), Fail> {
    let alloc = rt.alloc();
    let a = Key::read(b"a")?;
    let b = Key::read(b"b")?;
    assert!(rt; *two_listed(alloc, &a, &b)?.bytes() == page(TWO));
    let one = b"I\x01\x00\x01\x00\x00\x00\x02\x00\x00\x00\x00\x00\x00\x00\x07\x00\x00\x00\x01\x01b";
    assert!(rt; *child_written(alloc, &b)?.bytes() == page(one));
    let list = IndexPage::read(alloc, &page(TWO), INDEX)?;
    let entries = [
        IndexEntry { child: 0, first: a },
        IndexEntry { child: 1, first: b },
    ];
    assert!(rt; list.entries() == entries.as_slice());
    Ok(())
}

/// Why the text with one byte changed is no page for the place.
fn why(alloc: Global, text: &[u8], at: At, place: u8, byte: u8) -> Result<Option<PageFault>, Fail>
    requires { length text.now ≤ 4096 }
{
    let mut bytes = page(text);
    bytes[place as usize] = byte;
    if page_ok(&bytes, at) {
        return Err("a page that is damaged is sound".into());
    }
    let bytes = PageBytes::copy(alloc, &bytes)?;
    Ok(AnyPage::check(alloc, bytes, at).err())
}

#[test]
fn a_damaged_page_is_refused_for_its_first_fault(rt: HostRuntime) -> Result<(), Fail> {
    let cases = [
        (ONE, LEAF, 0, b'I', Why::Kind),
        (ONE, LEAF, 1, 2, Why::Kind),
        (ONE, LEAF, 15, 8, Why::Number),
        (ONE, LEAF, 3, 0, Why::Count),
        (ONE, LEAF, 17, 3, Why::Entry),
        (ONE, LEAF, 22, 1, Why::Rest),
        (TWO, INDEX, 7, 3, Why::Number),
        (TWO, INDEX, 25, 2, Why::Entry),
        (TWO, INDEX, 27, b'a', Why::Order),
    ];
    for (text, at, place, byte, why_not) in cases {
        let damaged = Damaged { at, why: why_not };
        let fault = why(rt.alloc(), text, at, place, byte)?;
        assert_eq!(rt; fault, Some(PageFault::Damaged(damaged)));
    }
    Ok(())
}
