ghost use Rattle.std.specs.Prelude.{◌≡◌, ◌≢◌, ◌≤◌, true, Some, None, IsSome, IsTrue, IfErr, IfSome, OnOk};
ghost use Rattle.spl_message.specs.Key.{is_below};
ghost use Rattle.spl_port.specs.Blur.{IsBlur};
ghost use Rattle.spl_build.specs.declared.stage.Stage.TheVariants.{Adding, Over};

use crate::{Add, BuildFault, Builder, Finish};
use spl_branch::{Branch, BranchFault};
use spl_message::{Content, HashedKey, Key, Message, Value};
use spl_page::LentMessage;
use spl_pager::Direct;
use spl_port::{Blur, BlurPort, Calls, Damaged, MemPort, Patches, Port, Seal, Why};
use std::alloc::Global;
use std::process::Abort;
use std::test::Fail;

/// The key `kNNNN` of a number below 10,000.
fn key_of(rt: &impl Abort, alloc: Global, number: u32) -> Key {
    let text = format!(in alloc; "k{number:04}").expect(rt, "memory");
    Key::read(text.as_bytes()).expect(rt, "a key")
}

/// An insert of this value.
fn insert(rt: &impl Abort, alloc: Global, bytes: &[u8]) -> Message {
    Message::Insert(Value::read(alloc, bytes).expect(rt, "a value"))
}

/// Whether the key is above the last one.
fn rises(last: &Option<Key>, key: &Key) -> bool
    ensures { IsTrue result → IfSome last.now (λ last. is_below last key.now ≡ true) }
{
    match last {
        Some(last) => last < key,
        None => true,
    }
}

/// Adds the key with the message, for which there is room.
fn add<P: Port>(
    rt: &impl Abort,
    builder: &mut Builder<P>,
    port: &mut P,
    key: &Key,
    message: &Message,
) -> Result<(), BuildFault>
    requires stage { builder.old.stage ≡ Adding }
    requires stopped { builder.old.stopped ≡ None }
    requires rising { IfSome builder.old.last (λ last. is_below last key.now ≡ true) }
    ensures stage { OnOk result (builder.new.stage ≡ Adding) }
    ensures stopped { OnOk result (builder.new.stopped ≡ None) }
    ensures last { OnOk result (builder.new.last ≡ Some key.now) }
    ensures extents { OnOk result (builder.new.extents ≡ builder.old.extents) }
    ensures err { IfErr result (λ fault. builder.new.stopped ≡ Some fault) }
{
    match builder.add(port, key, LentMessage::of(message))? {
        Add::Done => Ok(()),
        Add::Needs => panic!(rt; "no extent is left"),
    }
}

/// Adds the keys with the numbers below this one, each with the message.
fn fill<P: Port>(
    rt: &impl Abort,
    alloc: Global,
    builder: &mut Builder<P>,
    port: &mut P,
    count: u32,
    message: &Message,
) -> Result<(), BuildFault>
    requires stage { builder.old.stage ≡ Adding }
    requires stopped { builder.old.stopped ≡ None }
    requires last { builder.old.last ≡ None }
    ensures stage { OnOk result (builder.new.stage ≡ Adding) }
    ensures stopped { OnOk result (builder.new.stopped ≡ None) }
    ensures err { IfErr result (λ fault. builder.new.stopped ≡ Some fault) }
{
    let mut last = None;
    for number in 0..count {
        let key = key_of(rt, alloc, number);
        assert!(rt; rises(&last, &key));
        add(rt, builder, port, &key, message)?;
        last = Some(key);
    }
    Ok(())
}

/// The branch of what was added.
fn close<P: Port>(
    rt: &impl Abort,
    builder: &mut Builder<P>,
    port: &mut P,
) -> Result<Branch<P::Seal>, BuildFault>
    requires stage { builder.old.stage ≢ Over }
    requires stopped { builder.old.stopped ≡ None }
    ensures err { IfErr result (λ fault. builder.new.stopped ≡ Some fault) }
{
    match builder.finish(port)? {
        Finish::Built(branch) => Ok(branch),
        _ => panic!(rt; "no branch"),
    }
}

/// The branch of the keys with the numbers below this one.
fn build<P: Port>(
    rt: &impl Abort,
    alloc: Global,
    builder: &mut Builder<P>,
    port: &mut P,
    count: u32,
    message: &Message,
) -> Result<Branch<P::Seal>, BuildFault>
    requires stage { builder.old.stage ≡ Adding }
    requires stopped { builder.old.stopped ≡ None }
    requires last { builder.old.last ≡ None }
    ensures err { IfErr result (λ fault. builder.new.stopped ≡ Some fault) }
{
    fill(rt, alloc, builder, port, count, message)?;
    close(rt, builder, port)
}

/// A builder of branch 7, which has the extents 3, 4 and so on.
fn builder_with<P: Port>(rt: &impl Abort, alloc: Global, extents: u32) -> Builder<P>
    requires { extents ≤ 64 }
    ensures stage { result.stage ≡ Adding }
    ensures stopped { result.stopped ≡ None }
    ensures last { result.last ≡ None }
{
    let mut builder = Builder::new(alloc, 7);
    for extent in 0..extents {
        builder.give(extent + 3).expect(rt, "memory");
    }
    builder
}

/// Branch 7 of the keys with the numbers below this one, in the extents 3, 4 and so on.
fn made<P: Port>(
    rt: &impl Abort,
    alloc: Global,
    port: &mut P,
    extents: u32,
    count: u32,
    message: &Message,
) -> Branch<P::Seal>
    requires { extents ≤ 64 }
{
    let mut builder = builder_with(rt, alloc, extents);
    match build(rt, alloc, &mut builder, port, count, message) {
        Ok(branch) => branch,
        Err(_) => panic!(rt; "no branch"),
    }
}

/// What the branch has for the key.
fn look<P: Port>(
    branch: &Branch<P::Seal>,
    port: &mut P,
    key: &Key,
) -> Result<Option<Message>, BranchFault>
    ensures { (P.counts port.old).reads ≤ (P.counts port.new).reads }
{
    branch.get(port, &Direct, &HashedKey::of(key))
}

/// The branch's first leaf page that has an entry not below the key.
fn start<P: Port>(
    branch: &Branch<P::Seal>,
    port: &mut P,
    key: &[u8],
) -> Result<Option<u32>, BranchFault> {
    match Key::read(key) {
        Ok(key) => Ok(Some(branch.seek(port, &Direct, &key)?)),
        Err(_) => Ok(None),
    }
}

/// The branch of a deleted key and of one with an update, in extent 3, for which the builder asks when all keys are
/// there.
fn of_two<P: Port>(
    rt: &impl Abort,
    alloc: Global,
    port: &mut P,
    deleted: &Key,
    updated: &Key,
    update: &Message,
) -> Result<Branch<P::Seal>, BuildFault>
    requires { is_below deleted.now updated.now ≡ true }
{
    let mut builder = Builder::new(alloc, 7);
    add(rt, &mut builder, port, deleted, &Message::Delete)?;
    add(rt, &mut builder, port, updated, update)?;
    match builder.finish(port)? {
        Finish::Needs => builder.give(3)?,
        _ => panic!(rt; "a page was written without an extent"),
    }
    close(rt, &mut builder, port)
}

#[test]
fn deletes_and_updates_come_back_from_an_extent_that_came_late(
    rt: HostRuntime,
) -> Result<(), Fail> {
    let alloc = rt.alloc();
    let mut port = MemPort::new(alloc);
    let first = key_of(&rt, alloc, 0);
    let second = key_of(&rt, alloc, 1);
    let update = Message::Update(Value::read(alloc, b"+2")?);
    assert!(rt; first < second);
    let branch = of_two(&rt, alloc, &mut port, &first, &second, &update)?;
    assert_eq!(rt; (branch.levels(), branch.entries()), (1, 2));
    assert_eq!(rt; branch.extents(), [3].as_slice());
    assert!(rt; look(&branch, &mut port, &first)?.as_ref() == Some(&Message::Delete));
    assert!(rt; look(&branch, &mut port, &second)?.as_ref() == Some(&update));
    Ok(())
}

#[test]
fn nothing_added_makes_no_branch(rt: HostRuntime) -> Result<(), Fail> {
    let alloc = rt.alloc();
    let mut port = MemPort::new(alloc);
    let mut builder: Builder<MemPort> = Builder::new(alloc, 7);
    assert!(rt; matches!(builder.finish(&mut port)?, Finish::Empty));
    assert_eq!(rt; port.writes(), 0);
    Ok(())
}

#[test]
fn an_entry_that_does_not_fit_begins_a_page_and_a_lookup_reads_one_page_a_level(
    rt: HostRuntime,
) -> Result<(), Fail> {
    let alloc = rt.alloc();
    let one = insert(&rt, alloc, b"1");
    for (count, writes, levels) in [(408, 1, 1), (409, 3, 2)] {
        let mut port = MemPort::new(alloc);
        let branch = made(&rt, alloc, &mut port, 1, count, &one);
        assert_eq!(rt;
            (port.writes(), branch.levels()),
            (writes, levels),
            "{count} keys"
        );
        let last = key_of(&rt, alloc, count - 1);
        assert!(rt; look(&branch, &mut port, &last)?.as_ref() == Some(&one));
        assert_eq!(rt; port.reads(), levels as u64);
        for bytes in ["a", "k", "k00000", "k0407a", "k0409", "z"] {
            let absent = Key::read(bytes.as_bytes())?;
            assert!(rt; look(&branch, &mut port, &absent)?.is_none());
            assert_eq!(rt; branch.reach(&HashedKey::of(&absent)), 0, "{bytes}");
        }
        assert_eq!(rt; port.reads(), levels as u64);
    }
    Ok(())
}

#[test]
fn a_branch_spans_extents(rt: HostRuntime) -> Result<(), Fail> {
    let alloc = rt.alloc();
    let mut port = MemPort::new(alloc);
    let long = insert(&rt, alloc, &[b'v'; 400]);
    let branch = made(&rt, alloc, &mut port, 14, 4_000, &long);
    // Nine entries of 409 bytes a leaf page make 445 pages, and 408 children of 10 bytes an index page make two and a
    // root.
    assert_eq!(rt;
        (port.writes(), branch.levels(), branch.leaves()),
        (448, 3, 445)
    );
    for number in 0..4_000 {
        let key = key_of(&rt, alloc, number);
        let before = port.reads();
        assert!(rt;
            look(&branch, &mut port, &key)?.as_ref() == Some(&long),
            "{number}"
        );
        assert_eq!(rt; port.reads() - before, 3);
    }
    assert_eq!(rt; branch.cuts().len(), 3);
    for (rank, cut) in branch.cuts().iter().enumerate() {
        assert!(rt; *cut == key_of(&rt, alloc, (rank as u32 + 1) * 1024));
    }
    Ok(())
}

#[test]
fn a_scan_starts_at_the_first_leaf_page_that_goes_beyond_the_keys_below(
    rt: HostRuntime,
) -> Result<(), Fail> {
    let alloc = rt.alloc();
    let mut port = MemPort::new(alloc);
    let long = insert(&rt, alloc, &[b'v'; 400]);
    let branch = made(&rt, alloc, &mut port, 1, 20, &long);
    // The leaf pages begin at the keys 0, 9 and 18.
    let starts = [
        ("a", 0),
        ("k0000", 0),
        ("k0008", 0),
        ("k0008a", 1),
        ("k0009", 1),
        ("k0019", 2),
        ("k0019a", 3),
        ("z", 3),
    ];
    for (key, number) in starts {
        let found = start(&branch, &mut port, key.as_bytes())?;
        assert_eq!(rt; found, Some(number), "{key}");
    }
    // The root alone says that all keys are above the first one, and each of the others leads to a leaf page.
    assert_eq!(rt; port.reads(), 15);
    Ok(())
}

/// Whether each further call on a builder that was stopped says so, and makes no call of the port.
fn stays_stopped<P: Port>(
    builder: &mut Builder<P>,
    port: &mut P,
    key: &Key,
    message: &Message,
) -> bool
    requires { IsSome builder.old.stopped }
{
    let added = builder.add(port, key, LentMessage::of(message));
    let finished = builder.finish(port);
    matches!(
        (added, finished),
        (Err(BuildFault::Fault), Err(BuildFault::Fault))
    )
}

#[test]
fn a_call_that_fails_stops_the_builder_and_a_read_that_fails_the_lookup(
    rt: HostRuntime,
) -> Result<(), Fail> {
    let alloc = rt.alloc();
    let one = insert(&rt, alloc, b"1");
    let first = key_of(&rt, alloc, 0);
    for call in 0..4 {
        let calls = Calls::Listed(vec![in alloc; call]?.into());
        let mut port = MemPort::failing(alloc, calls);
        let mut builder = builder_with(&rt, alloc, 1);
        let Err(fault) = build(&rt, alloc, &mut builder, &mut port, 409, &one) else {
            panic!(rt; "call {call} did not fail")
        };
        assert_eq!(rt; fault, BuildFault::Fault);
        let writes = port.writes();
        assert!(rt; stays_stopped(&mut builder, &mut port, &first, &one));
        assert_eq!(rt; (port.faults(), port.writes()), (1, writes));
    }
    let mut port = MemPort::failing(alloc, Calls::Reads);
    let branch = made(&rt, alloc, &mut port, 1, 409, &one);
    assert!(rt; matches!(look(&branch, &mut port, &first), Err(BranchFault::Fault)));
    assert_eq!(rt; (port.faults(), port.reads()), (1, 0));
    Ok(())
}

/// What a lookup of the first key finds in a branch of 409 keys on a device that gives other bytes.
fn first_of(rt: &impl Abort, alloc: Global, blur: Blur) -> Result<Option<Message>, BranchFault>
    requires { IsBlur blur }
{
    let mut port = BlurPort::new(alloc, blur);
    let one = insert(rt, alloc, b"1");
    let branch = made(rt, alloc, &mut port, 1, 409, &one);
    look(&branch, &mut port, &key_of(rt, alloc, 0))
}

/// The place of the page that the lookup refused, and why.
fn refused(found: Result<Option<Message>, BranchFault>) -> Option<(u32, bool, Why)> {
    match found {
        Err(BranchFault::Damaged(Damaged { at, why })) => Some((at.page, at.leaf, why)),
        _ => None,
    }
}

#[test]
fn a_damaged_page_is_told_with_its_place(rt: HostRuntime) -> Result<(), Fail> {
    let alloc = rt.alloc();
    let zeros = refused(first_of(&rt, alloc, Blur::Zeros));
    assert_eq!(rt; zeros, Some((2, false, Why::Kind)));
    let bytes = Patches::from(vec![in alloc; (16, 0)]?);
    let no_key = refused(first_of(&rt, alloc, Blur::Patch { page: 0, bytes }));
    assert_eq!(rt; no_key, Some((0, true, Why::Entry)));
    let bytes = Patches::from(Vec::new(alloc));
    let found = first_of(&rt, alloc, Blur::Patch { page: 0, bytes })?;
    assert!(rt; found == Some(insert(&rt, alloc, b"1")));
    Ok(())
}
