//! A store is driven until its tree has three levels, and then each key is looked up.
//!
//! The root passes its 24 bundles on whenever it is full, one bundle to each child. So a child is full after 24 such rounds, and only then
//! does it pass its own on, or is merged as a whole where it is a leaf. The root of height 1 is raised in round 25, and the nodes below it
//! pass their bundles on in round 50.
//!
//! Meanwhile the device fails for a while. What the root passes on then is not merged, so that later a node has more branches than may
//! be passed on at once.
ghost use Rattle.std.specs.Prelude.{◌≡◌, true, IfOk};
ghost use Rattle.spl_message.specs.Rule.{newest};
ghost use Rattle.spl_core.specs.Standing.{StandsFor};
ghost use Rattle.spl_alone.specs.Alone.{only_holder};
ghost use Rattle.spl_drive.specs.Going.{MayGoOn};

use crate::calls::{delete, insert, lookup};
use crate::order::{key_of, mixed};
use crate::store::empty_store;
use crate::watch::{Events, Watched};
use spl_alone::Alone;
use spl_branch::Branch;
use spl_cache::Cache;
use spl_desk::{CallFault, Desk, Turns};
use spl_message::{Key, Newest, Value};
use spl_pager::Pager;
use spl_port::{Calls, MemPort, MemSeal, Port};
use spl_session::Session;
use std::alloc::Global;
use std::collections::BTreeMap;
use std::test::Fail;

/// Keys are numbers below this one.
const KEYS: u32 = 704_000;

/// Until the tree has three levels only one number in so many is put. So the leaves grow little, and many of them pass their turn
/// before the last ones are split: the left half of the root has bundles that none of its children has live.
const APART: u32 = 16;

/// No more puts are made than this.
const MOST: u32 = 2_000_000;

/// One put in so many deletes its key.
const DELETES: u32 = 8;

/// How often a put is tried on a device that fails: the root has two children, and then the memtable is to be packed.
const TRIES: u32 = 4;

/// One put: the key, and its value where it is not deleted.
#[derive(Clone, Copy, Debug)]
struct Put {
    number: u32,
    stamp: Option<u32>,
}

/// The put that comes at this place, of the numbers that are so far apart.
fn put_at(place: u32, apart: u32) -> Put {
    let apart = apart.max(1);
    let number = mixed(place) % (KEYS / apart).max(1);
    Put {
        number: number.wrapping_mul(apart),
        stamp: if place % DELETES == 0 {
            None
        } else {
            Some(place)
        },
    }
}

/// Notes what the key has after the put.
fn want(wanted: &mut BTreeMap<u32, u32>, put: Put) -> Result<(), Fail> {
    match put.stamp {
        Some(stamp) => {
            wanted.insert(put.number, stamp)?;
        }
        None => {
            wanted.remove(&put.number);
        }
    }
    Ok(())
}

/// Inserts the value, or deletes the key where there is none.
fn make_put<T: Turns<Branch<P::Seal>>, P: Port, G: Pager>(
    session: &mut Session<'_, T, P, G, Newest>,
    key: &Key,
    value: Option<&Value>,
) -> Result<u64, CallFault>
    requires { MayGoOn (T.means session.old.desk.turns) (T.saw session.old.desk.turns) (T.ready session.old.desk.turns) newest (Unit {0}) }
    ensures { MayGoOn (T.means session.new.desk.turns) (T.saw session.new.desk.turns) (T.ready session.new.desk.turns) newest (Unit {0}) }
{
    match value {
        Some(value) => insert(session, key, value),
        None => delete(session, key),
    }
}

/// Ends the desk, and hands its turns out.
fn leave<T: Turns<Branch<P::Seal>>, P: Port, G: Pager>(desk: Desk<'_, T, P, G, Newest>) -> T
    ensures { result ≡ desk.entry.turns }
{
    let Desk { turns, .. } = desk;
    turns
}

/// The value of a stamp.
fn value_of(alloc: Global, stamp: Option<u32>) -> Result<Option<Value>, Fail> {
    match stamp {
        Some(stamp) => Ok(Some(Value::read(alloc, &stamp.to_be_bytes())?)),
        None => Ok(None),
    }
}

/// The turns by which a put was made, and what it was answered.
#[derive(Drop)]
struct Made<T> {
    turns: T,
    outcome: Result<u64, CallFault>,
}

/// Makes the put by a session over the port.
fn put_on<T: Turns<Branch<P::Seal>>, P: Port, G: Pager>(
    alloc: Global,
    turns: T,
    port: &mut P,
    pager: &G,
    put: Put,
) -> Result<Made<T>, Fail>
    requires { MayGoOn (T.means turns) (T.saw turns) (T.ready turns) newest (Unit {0}) }
    ensures { IfOk result (λ made. MayGoOn (T.means made.turns) (T.saw made.turns) (T.ready made.turns) newest (Unit {0})) }
{
    let key = key_of(put.number).ok_or("no key")?;
    let value = value_of(alloc, put.stamp)?;
    let mut session = Session {
        desk: Desk {
            alloc,
            turns,
            port,
            pager,
            law: &Newest,
        },
    };
    let outcome = make_put(&mut session, &key, value.as_ref());
    let Session { desk } = session;
    Ok(Made {
        turns: leave(desk),
        outcome,
    })
}

/// What the driver waits for.
#[derive(Clone, Copy, Debug)]
enum Milestone {
    /// A node with children was split.
    IndexSplit,
    /// A node with children was seen with two bundles that were not merged.
    TwoWide,
    /// Bundles were too many branches to be passed on.
    TooWide,
    /// So many puts were made.
    Place(u32),
}

fn is_reached(events: &Events, place: u32, milestone: Milestone) -> bool {
    match milestone {
        Milestone::IndexSplit => events.index_splits > 0,
        Milestone::TwoWide => events.wide >= 2,
        Milestone::TooWide => events.too_wide > 0,
        Milestone::Place(end) => place >= end,
    }
}

/// How far the driver has come.
#[derive(Drop)]
struct Drive<T> {
    turns: Watched<T>,
    wanted: BTreeMap<u32, u32>,
    place: u32,
}

/// Puts until the milestone is reached.
fn put_until<T: Turns<Branch<P::Seal>>, P: Port, G: Pager>(
    alloc: Global,
    drive: Drive<T>,
    port: &mut P,
    pager: &G,
    apart: u32,
    milestone: Milestone,
) -> Result<Drive<T>, Fail>
    requires { MayGoOn (T.means drive.turns.holder) (T.saw drive.turns.holder) (T.ready drive.turns.holder) newest (Unit {0}) }
    ensures { IfOk result (λ drive. MayGoOn (T.means drive.turns.holder) (T.saw drive.turns.holder) (T.ready drive.turns.holder) newest (Unit {0})) }
{
    let Drive {
        mut turns,
        mut wanted,
        place,
    } = drive;
    for place in place..MOST {
        if is_reached(&turns.events, place, milestone) {
            return Ok(Drive {
                turns,
                wanted,
                place,
            });
        }
        let put = put_at(place, apart);
        let Made {
            turns: left,
            outcome,
        } = put_on(alloc, turns, port, pager, put)?;
        turns = left;
        outcome?;
        want(&mut wanted, put)?;
    }
    Err("the milestone was not reached".into())
}

/// Tries the put on a device that fails, and then makes it on one that works.
fn put_in_spite<T: Turns<Branch<P::Seal>>, P: Port, G: Pager>(
    alloc: Global,
    turns: T,
    failing: &mut P,
    port: &mut P,
    pager: &G,
    put: Put,
) -> Result<T, Fail>
    requires { MayGoOn (T.means turns) (T.saw turns) (T.ready turns) newest (Unit {0}) }
    ensures { IfOk result (λ turns. MayGoOn (T.means turns) (T.saw turns) (T.ready turns) newest (Unit {0})) }
{
    let mut turns = turns;
    'tries: for _ in 0..TRIES {
        let Made {
            turns: left,
            outcome,
        } = put_on(alloc, turns, failing, pager, put)?;
        turns = left;
        match outcome {
            Ok(_) => return Ok(turns),
            Err(CallFault::Fault) => {}
            Err(fault) => return Err(fault.into()),
        }
    }
    let Made {
        turns: left,
        outcome,
    } = put_on(alloc, turns, port, pager, put)?;
    outcome?;
    Ok(left)
}

/// Puts, each time on a device that fails first, until the milestone is reached.
fn put_in_spite_until<T: Turns<Branch<P::Seal>>, P: Port, G: Pager>(
    alloc: Global,
    drive: Drive<T>,
    failing: &mut P,
    port: &mut P,
    pager: &G,
    milestone: Milestone,
) -> Result<Drive<T>, Fail>
    requires { MayGoOn (T.means drive.turns.holder) (T.saw drive.turns.holder) (T.ready drive.turns.holder) newest (Unit {0}) }
    ensures { IfOk result (λ drive. MayGoOn (T.means drive.turns.holder) (T.saw drive.turns.holder) (T.ready drive.turns.holder) newest (Unit {0})) }
{
    let Drive {
        mut turns,
        mut wanted,
        place,
    } = drive;
    for place in place..MOST {
        if is_reached(&turns.events, place, milestone) {
            return Ok(Drive {
                turns,
                wanted,
                place,
            });
        }
        let put = put_at(place, 1);
        turns = put_in_spite(alloc, turns, failing, port, pager, put)?;
        want(&mut wanted, put)?;
    }
    Err("the milestone was not reached".into())
}

/// Whether this is the value of the stamp, or none where there is no stamp.
fn is_of(value: &Option<Value>, stamp: Option<&u32>) -> bool {
    match (value, stamp) {
        (Some(value), Some(stamp)) => value.bytes() == stamp.to_be_bytes().as_slice(),
        (None, None) => true,
        _ => false,
    }
}

/// How many keys have another value than is wanted.
fn wrong_keys<T: Turns<Branch<P::Seal>>, P: Port, G: Pager>(
    session: &mut Session<'_, T, P, G, Newest>,
    wanted: &BTreeMap<u32, u32>,
) -> Result<u32, Fail>
    requires { MayGoOn (T.means session.old.desk.turns) (T.saw session.old.desk.turns) (T.ready session.old.desk.turns) newest (Unit {0}) }
{
    let mut wrong = 0u32;
    for number in 0..KEYS {
        let key = key_of(number).ok_or("no key")?;
        let found = lookup(session, &key)?;
        if !is_of(&found, wanted.get(&number)) {
            wrong = wrong.saturating_add(1);
        }
    }
    Ok(wrong)
}

/// A driver of an empty store.
fn start(alloc: Global) -> Result<Drive<Alone<Branch<MemSeal>, Newest>>, Fail>
    ensures { IfOk result (λ drive. MayGoOn (only_holder newest drive.turns.holder.core.parts)
        (StandsFor newest true drive.turns.holder.core.parts) (Unit {0}) newest (Unit {0})) }
{
    let holder = empty_store(alloc)?;
    Ok(Drive {
        turns: Watched {
            holder,
            events: Events::default(),
        },
        wanted: BTreeMap::new(alloc),
        place: 0,
    })
}

#[test]
fn a_tree_of_three_levels_holds_what_was_put(rt: HostRuntime) -> Result<(), Fail> {
    let alloc = rt.alloc();
    let cache = Cache::new(alloc, 64)?;
    let mut port = MemPort::new(alloc);
    let mut failing = MemPort::failing(alloc, Calls::Every);
    let begun = start(alloc)?;
    let split = put_until(
        alloc,
        begun,
        &mut port,
        &cache,
        APART,
        Milestone::IndexSplit,
    )?;
    let wide = put_in_spite_until(
        alloc,
        split,
        &mut failing,
        &mut port,
        &cache,
        Milestone::TwoWide,
    )?;
    let met = put_until(alloc, wide, &mut port, &cache, 1, Milestone::TooWide)?;
    let end = Milestone::Place(met.place.saturating_add(30_000));
    let Drive { turns, wanted, .. } = put_until(alloc, met, &mut port, &cache, 1, end)?;
    let events = turns.events;
    assert_eq!(rt; events.height, 2);
    assert_eq!(rt; events.raises, 2);
    assert!(rt; events.dead > 0);
    assert!(rt; events.full > 0);
    let mut session = Session {
        desk: Desk {
            alloc,
            turns,
            port: &mut port,
            pager: &cache,
            law: &Newest,
        },
    };
    assert_eq!(rt; wrong_keys(&mut session, &wanted)?, 0);
    Ok(())
}
