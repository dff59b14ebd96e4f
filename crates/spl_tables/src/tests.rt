use super::*;
use spl_memtable::Put;
use spl_message::{Key, Message, Newest, Span};
use std::alloc::Global;
use std::test::Fail;

const EVERYTHING: Span = Span {
    from: None,
    to: None,
};

/// Deletes the keys 0 to 1,023, of two bytes each.
fn fill(memtables: &mut Memtables) -> Result<(), Fail> {
    for number in 0..1024u16 {
        let key = Key::read(&number.to_be_bytes())?;
        if memtables.put(&Newest, &key, Message::Delete)? == Put::Full {
            break;
        }
    }
    Ok(())
}

/// Memtables of which one is frozen, and the active one has no keys.
fn rotated(alloc: Global) -> Result<Memtables, Fail> {
    let mut memtables = Memtables::new(alloc)?;
    fill(&mut memtables)?;
    if memtables.next() > 0 || memtables.rotate()? != Rotation::Rotated {
        return Err("a full memtable is not frozen".into());
    }
    Ok(memtables)
}

/// The number that the actor is given, if it is given a memtable with the key 0.
fn picked(memtables: &mut Memtables, actor: u32) -> Result<Option<u64>, Fail> {
    let key = Key::read(&[0, 0])?;
    match memtables.pick(actor)? {
        Some(picked) if picked.table.get(&key).is_some() => Ok(Some(picked.number)),
        _ => Ok(None),
    }
}

/// What threads may share.
fn shared<T: Send + Sync>(value: &T) -> &T {
    value
}

#[test]
fn a_released_memtable_is_picked_again(rt: HostRuntime) -> Result<(), Fail> {
    let mut memtables = rotated(rt.alloc())?;
    assert_eq!(rt; picked(&mut memtables, 3)?, Some(0));
    assert_eq!(rt; picked(&mut memtables, 4)?, None);
    memtables.release(4);
    assert_eq!(rt;
        memtables.oldest(),
        Some(Oldest {
            number: 0,
            picked: Some(3)
        })
    );
    memtables.release(3);
    assert_eq!(rt; picked(&mut memtables, 4)?, Some(0));
    Ok(())
}

#[test]
fn the_oldest_goes_and_its_slices_stay(rt: HostRuntime) -> Result<(), Fail> {
    let mut memtables = rotated(rt.alloc())?;
    let slices = memtables.slices(rt.alloc(), &EVERYTHING)?;
    if memtables.frozen() > 0 {
        memtables.remove_oldest();
    }
    assert_eq!(rt; memtables.oldest(), None);
    assert_eq!(rt; memtables.keys(), 0);
    assert_eq!(rt; memtables.next(), 1);
    assert_eq!(rt; shared(&slices).as_slice().len(), 2);
    let key = Key::read(&[0, 7])?;
    let found = slices.as_slice().first().and_then(|slice| slice.get(&key));
    assert_eq!(rt; found, Some(&Message::Delete));
    Ok(())
}

#[test]
fn a_memtable_with_room_is_not_frozen(rt: HostRuntime) -> Result<(), Fail> {
    let mut memtables = Memtables::new(rt.alloc())?;
    assert_eq!(rt; memtables.rotate()?, Rotation::NotFull);
    assert_eq!(rt; memtables.frozen(), 0);
    Ok(())
}
