//! The slots that the bundles are stored in.
ghost use Rattle.std.specs.Prelude.{◌≡◌, ◌%◌, ◌≤◌, [], length, map, All, slice_set, slice_index_or};
ghost use Rattle.spl_bundle.specs.Numbered.{unmarked, live, owned_by, without_mark};
ghost use Rattle.spl_bundle.specs.Slots.{IsSlot, bundle_in, contents};

use crate::bundles::{Bundles, MAX_BRANCHES, MAX_LISTS};
use smallvec::SmallVec;
use std::alloc::Global;
use std::array;

/// One bundle, stored inline.
#[derive(Debug, Drop)]
pub(crate) struct Slot {
    pub(crate) branches: SmallVec<u64, MAX_BRANCHES>,
    pub(crate) owner: Option<u32>,
}

/// The slot of the bundle with this number.
pub(crate) fn slot_of(number: u64) -> usize
    ensures { result ≡ number % MAX_LISTS }
{
    (number % MAX_LISTS as u64) as usize
}

pub(crate) fn empty_slots(alloc: Global) -> [Slot; MAX_LISTS]
    ensures { All IsSlot result }
{
    array::from_fn(|_| Slot {
        branches: SmallVec::new(alloc),
        owner: None,
    })
}

/// Overwrites the slot of the number with the list, without a mark.
pub(crate) fn fill(slots: &mut [Slot; MAX_LISTS], number: u64, list: &[u64])
    requires slots { All IsSlot slots.old }
    requires branches { length list.now ≤ MAX_BRANCHES }
    ensures contents { contents slots.new ≡ slice_set (contents slots.old) (number % MAX_LISTS) (unmarked list.now) }
    ensures count { length (contents slots.new) ≡ MAX_LISTS }
    ensures slots { All IsSlot slots.new }
{
    overwrite(&mut slots[slot_of(number)], list, None);
}

fn overwrite(slot: &mut Slot, list: &[u64], owner: Option<u32>)
    requires slot { IsSlot slot.old }
    requires branches { length list.now ≤ MAX_BRANCHES }
    ensures bundle { bundle_in slot.new ≡ record { branches = list.now; owner = owner } }
    ensures slot { IsSlot slot.new }
{
    slot.branches.clear();
    slot.branches.extend_from_slice(list).unwrap();
    slot.owner = owner;
}

/// Overwrites the slot of the number with the live lists of another queue, joined, without a mark.
pub(crate) fn fill_joined(slots: &mut [Slot; MAX_LISTS], number: u64, other: &Bundles, mark: u64)
    requires slots { All IsSlot slots.old }
    requires branches { length (live other.now mark) ≤ MAX_BRANCHES }
    ensures contents { contents slots.new ≡ slice_set (contents slots.old) (number % MAX_LISTS) (unmarked (live other.now mark)) }
    ensures count { length (contents slots.new) ≡ MAX_LISTS }
    ensures slots { All IsSlot slots.new }
{
    join(&mut slots[slot_of(number)], other, mark);
}

fn join(slot: &mut Slot, other: &Bundles, mark: u64)
    requires slot { IsSlot slot.old }
    requires branches { length (live other.now mark) ≤ MAX_BRANCHES }
    ensures bundle { bundle_in slot.new ≡ unmarked (live other.now mark) }
    ensures slot { IsSlot slot.new }
{
    slot.branches.clear();
    slot.owner = None;
    let from = other.first().max(mark);
    for number in from..other.next() {
        slot.branches.extend_from_slice(other.list(number)).unwrap();
    }
}

/// Gives the bundle of the number an owner, or none.
pub(crate) fn mark(slots: &mut [Slot; MAX_LISTS], number: u64, owner: Option<u32>)
    requires { All IsSlot slots.old }
    ensures contents { contents slots.new ≡ slice_set (contents slots.old) (number % MAX_LISTS)
        (owned_by owner (slice_index_or (contents slots.old) (number % MAX_LISTS) (unmarked []))) }
    ensures count { length (contents slots.new) ≡ MAX_LISTS }
    ensures slots { All IsSlot slots.new }
{
    slots[slot_of(number)].owner = owner;
}

/// Clears the marks of the actor.
pub(crate) fn release(slots: &mut [Slot; MAX_LISTS], actor: u32)
    requires { All IsSlot slots.old }
    ensures contents { contents slots.new ≡ map (without_mark actor) (contents slots.old) }
    ensures slots { All IsSlot slots.new }
{
    for slot in slots.iter_mut() {
        clear(slot, actor);
    }
}

fn clear(slot: &mut Slot, actor: u32)
    requires { IsSlot slot.old }
    ensures bundle { bundle_in slot.new ≡ without_mark actor (bundle_in slot.old) }
    ensures slot { IsSlot slot.new }
{
    if slot.owner == Some(actor) {
        slot.owner = None;
    }
}

/// A copy of the slots.
pub(crate) fn copy_slots(slots: &[Slot; MAX_LISTS]) -> [Slot; MAX_LISTS]
    requires { All IsSlot slots.now }
    ensures contents { contents result ≡ contents slots.now }
    ensures slots { All IsSlot result }
{
    let mut copy = empty_slots(*slots[0].branches.allocator());
    for i in 0..MAX_LISTS {
        let slot = &slots[i];
        overwrite(&mut copy[i], slot.branches.as_slice(), slot.owner);
    }
    copy
}
