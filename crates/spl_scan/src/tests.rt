ghost use Rattle.std.specs.Prelude.{◌≡◌, true, None, Some, IsTrue, IfSome};
ghost use Rattle.spl_build.specs.declared.stage.Stage.TheVariants.{Adding};
ghost use Rattle.spl_message.specs.Key.{is_below};

use crate::Scan;
use spl_branch::Branch;
use spl_build::{Add, Builder, Finish};
use spl_message::{Bound, Key, Message, Span};
use spl_page::LentMessage;
use spl_pager::Direct;
use spl_port::{MemPort, MemSeal};
use std::alloc::Global;
use std::process::Abort;
use std::sync::Arc;
use std::test::Fail;

/// The key `kNNNN` of a number below 10,000.
fn key_of(rt: &impl Abort, alloc: Global, number: u32) -> Key {
    let text = format!(in alloc; "k{number:04}").expect(rt, "memory");
    Key::read(text.as_bytes()).expect(rt, "a key")
}

/// Whether the key is above the last one.
fn rises(last: &Option<Key>, key: &Key) -> bool
    ensures { IsTrue result → IfSome last.now (λ last. is_below last key.now ≡ true) }
{
    match last {
        Some(last) => last < key,
        None => true,
    }
}

/// Adds the key with a delete, for which there is room.
fn add(rt: &impl Abort, builder: &mut Builder<MemPort>, port: &mut MemPort, key: &Key)
    requires stage { builder.old.stage ≡ Adding }
    requires stopped { builder.old.stopped ≡ None }
    requires rising { IfSome builder.old.last (λ last. is_below last key.now ≡ true) }
    ensures stage { builder.new.stage ≡ Adding }
    ensures stopped { builder.new.stopped ≡ None }
    ensures last { builder.new.last ≡ Some key.now }
{
    match builder.add(port, key, LentMessage::Delete) {
        Ok(Add::Done) => {}
        _ => panic!(rt; "not added"),
    }
}

/// A branch in which the keys with the numbers below 1,000 are deleted. It has three leaf pages below a root.
fn branch(rt: &impl Abort, alloc: Global, port: &mut MemPort) -> Branch<MemSeal> {
    let mut builder = Builder::new(alloc, 7);
    builder.give(3).expect(rt, "memory");
    let mut last = None;
    for number in 0..1_000 {
        let key = key_of(rt, alloc, number);
        assert!(rt; rises(&last, &key));
        add(rt, &mut builder, port, &key);
        last = Some(key);
    }
    match builder.finish(port) {
        Ok(Finish::Built(branch)) => branch,
        _ => panic!(rt; "no branch"),
    }
}

/// How many entries a scan of the span gives, and how many pages it reads.
fn count(rt: &impl Abort, alloc: Global, from: Option<Key>, to: Option<Bound>) -> (u32, u64) {
    let mut port = MemPort::new(alloc);
    let branch = Arc::new(alloc, branch(rt, alloc, &mut port)).expect(rt, "memory");
    let mut scan = Scan::new(alloc, branch, &Span { from, to });
    for given in 0..2_000 {
        let next = scan.next(&mut port, &Direct).expect(rt, "an entry");
        if next.is_none() {
            return (given, port.reads());
        }
    }
    panic!(rt; "no end");
}

#[test]
fn a_scan_reads_each_leaf_page_of_its_span(rt: HostRuntime) -> Result<(), Fail> {
    let alloc = rt.alloc();
    let first = Key::read(b"k")?;
    let middle = Key::read(b"k0500")?;
    let late = Key::read(b"z")?;
    let cases = [
        (None, None, 1_000, 3),
        (Some(middle), None, 500, 4),
        (Some(middle), Some(Bound::after(&middle)), 1, 3),
        (Some(middle), Some(Bound::of(&middle)), 0, 3),
        (None, Some(Bound::of(&first)), 0, 1),
        (Some(late), None, 0, 2),
    ];
    for (from, to, entries, reads) in cases {
        assert_eq!(rt; count(&rt, alloc, from, to), (entries, reads));
    }
    Ok(())
}
