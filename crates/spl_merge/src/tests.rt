use crate::{Merger, Step};
use spl_message::{Key, Message, Newest, Span, Value};
use std::alloc::Global;
use std::test::Fail;

/// What a step answers where an older stream begins with an insert of the key, and a newer one with a delete.
fn delete_over_insert(alloc: Global, bottom: bool) -> Result<Step, Fail> {
    let all = Span {
        from: None,
        to: None,
    };
    let key = Key::read(b"a")?;
    let value = Value::read(alloc, b"1")?;
    let mut merger = Merger::new(alloc, &all, bottom, 2)?;
    merger.give(1, Some((key, Message::Delete)));
    merger.give(0, Some((key, Message::Insert(value))));
    Ok(merger.step(&Newest)?)
}

#[test]
fn a_delete_is_kept_above_the_bottom(rt: HostRuntime) -> Result<(), Fail> {
    let alloc = rt.alloc();
    let entry = Step::Entry(Key::read(b"a")?, Message::Delete);
    assert_eq!(rt; delete_over_insert(alloc, false)?, entry);
    assert_eq!(rt; delete_over_insert(alloc, true)?, Step::Dropped);
    Ok(())
}

#[test]
fn no_streams_have_ended(rt: HostRuntime) -> Result<(), Fail> {
    let all = Span {
        from: None,
        to: None,
    };
    let mut merger = Merger::new(rt.alloc(), &all, false, 0)?;
    assert!(rt; merger.wanted().is_none());
    assert_eq!(rt; merger.step(&Newest)?, Step::Ended);
    Ok(())
}
