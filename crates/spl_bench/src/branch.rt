//! A branch: building it, and lookups that read and check each page.
ghost use Rattle.std.specs.Prelude.{◌≡◌, true, None, IsTrue, IfOk, IfSome};
ghost use Rattle.spl_message.specs.Key.{is_below};
ghost use Rattle.spl_build.specs.declared.stage.Stage.TheVariants.{Adding};

use crate::timed::Timed;
use anyhow::{Result, bail};
use spl_branch::Branch;
use spl_build::{Add, Builder, Finish};
use spl_message::{HashedKey, Key, Message, NoMemory, Value};
use spl_page::LentMessage;
use spl_pager::{Direct, Pager};
use spl_port::{MemPort, MemSeal, Port};
use std::alloc::Global;
use std::rt::Clock;

/// How many extents the builder is given: room for some 800,000 keys.
const EXTENTS: u32 = 64;

/// How many keys are looked up.
pub const LOOKUPS: u32 = 200_000;

/// The key of a number: its four bytes, with the highest first.
fn key_of(number: u32) -> Option<Key> {
    Key::read(&number.to_be_bytes()).ok()
}

/// Whether the key is above the last one.
fn rises(last: &Option<Key>, key: &Key) -> bool
    ensures { IsTrue result → IfSome last.now (λ last. is_below last key.now ≡ true) }
{
    match last {
        Some(last) => last < key,
        None => true,
    }
}

/// A builder with room.
fn builder(alloc: Global) -> Result<Builder<MemPort>, NoMemory>
    ensures stage { IfOk result (λ builder. builder.stage ≡ Adding) }
    ensures stopped { IfOk result (λ builder. builder.stopped ≡ None) }
    ensures last { IfOk result (λ builder. builder.last ≡ None) }
{
    let mut builder = Builder::new(alloc, 7);
    for extent in 0..EXTENTS {
        builder.give(extent)?;
    }
    Ok(builder)
}

/// Adds the keys with the numbers below this one. Returns how many were added.
fn fill(builder: &mut Builder<MemPort>, port: &mut MemPort, count: u32, message: &Message) -> u32
    requires stage { builder.old.stage ≡ Adding }
    requires stopped { builder.old.stopped ≡ None }
    requires last { builder.old.last ≡ None }
    ensures stage { builder.new.stopped ≡ None → builder.new.stage ≡ Adding }
{
    let mut last = None;
    for number in 0..count {
        let Some(key) = key_of(number) else {
            return number;
        };
        if !rises(&last, &key) {
            return number;
        }
        match builder.add(port, &key, LentMessage::of(message)) {
            Ok(Add::Done) => last = Some(key),
            _ => return number,
        }
    }
    count
}

/// How many of so many keys, asked for in no order, the branch has.
pub fn lookups<G: Pager>(
    branch: &Branch<MemSeal>,
    port: &mut MemPort,
    pager: &G,
    count: u32,
) -> u64 {
    let mut found = 0u64;
    for n in 0..LOOKUPS {
        let number = n.wrapping_mul(2_654_435_761) % count.max(1);
        if let Some(key) = key_of(number)
            && let Ok(Some(_)) = branch.get(port, pager, &HashedKey::of(&key))
        {
            found = found.wrapping_add(1);
        }
    }
    found
}

/// Builds a branch of so many keys, and times that.
pub fn built<R: Clock + Print + AllocGlobal>(
    rt: &R,
    port: &mut MemPort,
    count: u32,
) -> Result<Branch<MemSeal>> {
    let alloc = rt.alloc();
    let message = Message::Insert(Value::read(alloc, b"11")?);
    let mut builder = builder(alloc)?;
    let timed = Timed::start(rt)?;
    let added = fill(&mut builder, port, count, &message);
    timed.tell(rt, "add a key", u64::from(count), u64::from(added))?;
    let timed = Timed::start(rt)?;
    let Finish::Built(branch) = builder.finish(port)? else {
        bail!("no branch was built");
    };
    timed.tell(rt, "finish, for each key", u64::from(count), port.writes())?;
    Ok(branch)
}

/// Times a branch of so many keys.
pub fn measure<R: Clock + Print + AllocGlobal>(rt: &R, count: u32) -> Result<()> {
    let mut port = MemPort::new(rt.alloc());
    let branch = built(rt, &mut port, count)?;
    let timed = Timed::start(rt)?;
    let found = lookups(&branch, &mut port, &Direct, count);
    timed.tell(
        rt,
        "look a key up, from the device",
        u64::from(LOOKUPS),
        found,
    )?;
    Ok(())
}
