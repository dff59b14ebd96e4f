ghost use Rattle.std.specs.Prelude.{◌≡◌, ◌≤◌};

use crate::{Fits, Found, Latched, Read, Write};
use std::process::Abort;
use std::test::Fail;

/// A number that is at most the latch's tag.
#[derive(Clone, Copy, Debug, PartialEq, Eq)]
struct Small(u64);

impl Fits for Small {
    type Tag = u64;

    ghost fits = { λ most small. small.0 ≤ most };
}

/// Says that a value may be shared by threads.
fn crosses<T: Send + Sync>(_value: &T) {}

fn read<'a>(rt: &impl Abort, latch: &'a Latched<Small>) -> Read<'a, Small>
    ensures { result.claim.tag ≡ latch.now.slot }
{
    match latch.try_read() {
        Ok(read) => read,
        Err(_) => panic!(rt; "the latch is written"),
    }
}

fn write<'a>(rt: &impl Abort, latch: &'a Latched<Small>) -> Write<'a, Small>
    ensures { result.claim.tag ≡ latch.now.slot }
{
    match latch.try_write() {
        Ok(write) => write,
        Err(_) => panic!(rt; "the latch is held"),
    }
}

/// The word that a write met, where it is refused.
fn write_refused(rt: &impl Abort, latch: &Latched<Small>) -> Found
    requires { latch.now.slot ≡ 9 }
{
    match latch.try_write() {
        Ok(write) => {
            write.put(Small(0));
            panic!(rt; "two hold the latch")
        }
        Err(found) => found,
    }
}

#[test]
fn readers_stand_beside_each_other_and_keep_a_writer_out(rt: HostRuntime) -> Result<(), Fail> {
    let latch = Latched::new(Small(1), &9);
    crosses(&latch);
    let first = read(&rt, &latch);
    let second = read(&rt, &latch);
    assert_eq!(rt; (*first.value(), *second.value()), (Small(1), Small(1)));
    assert!(rt; write_refused(&rt, &latch).is_readable());
    second.leave();
    assert!(rt; write_refused(&rt, &latch).is_readable());
    first.leave();
    write(&rt, &latch).put(Small(9));
    let last = read(&rt, &latch);
    assert_eq!(rt; *last.value(), Small(9));
    last.leave();
    Ok(())
}

#[test]
fn a_writer_keeps_all_others_out_until_it_puts(rt: HostRuntime) -> Result<(), Fail> {
    let latch = Latched::new(Small(1), &9);
    let writer = write(&rt, &latch);
    match latch.try_read() {
        Ok(_read) => panic!(rt; "a value is read while it is written"),
        Err(found) => assert!(rt; !found.is_readable()),
    }
    write_refused(&rt, &latch);
    writer.put(Small(2));
    let reader = read(&rt, &latch);
    assert_eq!(rt; *reader.value(), Small(2));
    reader.leave();
    Ok(())
}

#[test]
fn a_value_keeps_its_mark_while_it_is_read(rt: HostRuntime) -> Result<(), Fail> {
    let latch = Latched::new(Small(1), &9);
    assert_eq!(rt; latch.mark(), 0);
    write(&rt, &latch).put_marked(Small(2), u32::MAX);
    let reader = read(&rt, &latch);
    assert_eq!(rt; (latch.mark(), *reader.value()), (u32::MAX, Small(2)));
    reader.leave();
    let writer = write(&rt, &latch);
    assert_eq!(rt; latch.mark(), u32::MAX);
    writer.put(Small(3));
    assert_eq!(rt; latch.mark(), 0);
    let said = format!(in rt.alloc(); "{}", Found { word: 3 })?;
    assert_eq!(rt; said.as_str(), "the latch is held by others");
    Ok(())
}
