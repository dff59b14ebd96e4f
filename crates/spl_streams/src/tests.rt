ghost use Rattle.std.specs.Prelude.{◌≡◌, true, false, None, Some, IsTrue, IfSome, IfOk};
ghost use Rattle.spl_build.specs.declared.stage.Stage.TheVariants.{Adding};
ghost use Rattle.spl_message.specs.Key.{is_below};

use crate::Merged;
use spl_branch::Branch;
use spl_build::{Add, Builder, Finish};
use spl_message::{Bound, Key, Message, Newest, Span, Value};
use spl_page::LentMessage;
use spl_pager::Direct;
use spl_port::{MemPort, MemSeal};
use std::alloc::Global;
use std::ops::Range;
use std::process::Abort;
use std::sync::Arc;
use std::test::Fail;

/// The key `kNNNN` of a number below 10,000.
fn key_of(rt: &impl Abort, alloc: Global, number: u32) -> Key {
    let text = format!(in alloc; "k{number:04}").expect(rt, "memory");
    Key::read(text.as_bytes()).expect(rt, "a key")
}

/// Whether the key is above the last one.
fn rises(last: &Option<Key>, key: &Key) -> bool
    ensures { IsTrue result → IfSome last.now (λ last. is_below last key.now ≡ true) }
{
    match last {
        Some(last) => last < key,
        None => true,
    }
}

/// Adds the key with a message, for which there is room.
fn add(
    rt: &impl Abort,
    builder: &mut Builder<MemPort>,
    port: &mut MemPort,
    key: &Key,
    message: LentMessage,
)
    requires stage { builder.old.stage ≡ Adding }
    requires stopped { builder.old.stopped ≡ None }
    requires rising { IfSome builder.old.last (λ last. is_below last key.now ≡ true) }
    ensures stage { builder.new.stage ≡ Adding }
    ensures stopped { builder.new.stopped ≡ None }
    ensures last { builder.new.last ≡ Some key.now }
{
    match builder.add(port, key, message) {
        Ok(Add::Done) => {}
        _ => panic!(rt; "not added"),
    }
}

/// A branch of this number, in which each key with a number in the range has the message.
fn branch(
    rt: &impl Abort,
    alloc: Global,
    port: &mut MemPort,
    number: u32,
    keys: Range<u32>,
    message: &Message,
) -> Arc<Branch<MemSeal>> {
    let mut builder = Builder::new(alloc, u64::from(number));
    builder.give(number).expect(rt, "memory");
    let mut last = None;
    for number in keys {
        let key = key_of(rt, alloc, number);
        assert!(rt; rises(&last, &key));
        add(rt, &mut builder, port, &key, LentMessage::of(message));
        last = Some(key);
    }
    match builder.finish(port) {
        Ok(Finish::Built(branch)) => Arc::new(alloc, branch).expect(rt, "memory"),
        _ => panic!(rt; "no branch"),
    }
}

/// How many entries the merge of two branches gives, and how many pages it reads. The older one inserts
/// the keys below 6, and the newer one deletes those from 4 to 7.
fn count(rt: &impl Abort, alloc: Global, span: &Span, bottom: bool) -> (u32, u64) {
    let mut port = MemPort::new(alloc);
    let value = Value::read(alloc, b"1").expect(rt, "a value");
    let older = branch(rt, alloc, &mut port, 3, 0..6, &Message::Insert(value));
    let newer = branch(rt, alloc, &mut port, 4, 4..8, &Message::Delete);
    let mut merged = Merged::new(alloc, &[older, newer], span, bottom).expect(rt, "memory");
    for given in 0..100 {
        let next = merged
            .next(&mut port, &Direct, &Newest)
            .expect(rt, "an entry");
        if next.is_none() {
            return (given, port.reads());
        }
    }
    panic!(rt; "no end");
}

#[test]
fn a_merge_gives_each_key_once(rt: HostRuntime) -> Result<(), Fail> {
    let alloc = rt.alloc();
    let from = Key::read(b"k0002")?;
    let to = Key::read(b"k0005")?;
    let all = Span {
        from: None,
        to: None,
    };
    let middle = Span {
        from: Some(from),
        to: Some(Bound::of(&to)),
    };
    assert_eq!(rt; count(&rt, alloc, &all, false), (8, 2));
    assert_eq!(rt; count(&rt, alloc, &all, true), (4, 2));
    assert_eq!(rt; count(&rt, alloc, &middle, false).0, 3);
    assert_eq!(rt; count(&rt, alloc, &middle, true).0, 2);
    Ok(())
}

#[test]
fn no_branches_have_no_entry(rt: HostRuntime) -> Result<(), Fail> {
    let alloc = rt.alloc();
    let mut port = MemPort::new(alloc);
    let all = Span {
        from: None,
        to: None,
    };
    let mut merged = Merged::<MemSeal>::new(alloc, &[], &all, false)?;
    assert!(rt; merged.next(&mut port, &Direct, &Newest)?.is_none());
    assert_eq!(rt; port.reads(), 0);
    Ok(())
}
