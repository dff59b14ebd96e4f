//! The slots of a filter, by positions.
ghost use Rattle.std.specs.Prelude.{◌≡◌, ◌^◌, ◌<◌, length, replicate, slice_set, IfOk};
ghost use Rattle.spl_quotient.specs.Slot.{blank};
ghost use Rattle.spl_quotient.specs.Table.{at, position_in, place_in_turn};

use crate::slot::Slot;
use spl_message::NoMemory;
use std::alloc::Global;
use std::marker::Model;

/// A ring of slots. Positions are counted from the slot with the number `origin` and wrap around at the end of the
/// table. If no earlier run reaches that slot, all runs lie in the order of their positions.
#[derive(Debug, Drop)]
pub(crate) struct Table {
    slots: Vec<Slot>,
    origin: usize,
}

impl Model for Table {
    ghost use Rattle.std.specs.Prelude.{◌<◌, length};
    ghost use Rattle.spl_quotient.specs.Table.{Table as Turned, turned};

    ghost Value = { Turned };

    ghost view = { λ table. record { slots = turned table.origin table.slots.items; origin = table.origin } };

    ghost invariant = { λ table. table.origin < length table.slots.items };
}

impl Table {
    /// A table of empty slots.
    pub(crate) fn new(alloc: Global, count: usize, origin: usize) -> Result<Table, NoMemory>
        requires { origin < count }
        ensures { IfOk result (λ table. table ≡ record { slots = replicate count blank; origin = origin }) }
    {
        let mut slots = Vec::new(alloc);
        slots.resize(count, Slot::blank())?;
        Ok(Table { slots, origin })
    }

    /// How many slots there are.
    pub(crate) fn len(&self) -> usize
        ensures value { result ≡ length self.now.slots }
        ensures fits { length self.now.slots < 2 ^ 63 }
    {
        self.slots.len()
    }

    /// The position of the slot with this number.
    pub(crate) fn position_of(&self, number: usize) -> usize
        requires { number < length self.now.slots }
        ensures value { result ≡ position_in self.now.origin (length self.now.slots) number }
        ensures within { result < length self.now.slots }
    {
        if number < self.origin {
            number + (self.slots.len() - self.origin)
        } else {
            number - self.origin
        }
    }

    /// The slot at a position.
    pub(crate) fn slot_at(&self, position: usize) -> Slot
        requires { position < length self.now.slots }
        ensures value { result ≡ at self.now.slots position }
        ensures fits { length self.now.slots < 2 ^ 63 }
    {
        self.slots[number_of(self.origin, position, self.slots.len())]
    }

    /// Puts the slot at a position.
    pub(crate) fn put(&mut self, position: usize, slot: Slot)
        requires { position < length self.old.slots }
        ensures { self.new ≡ record self.old { slots = slice_set self.old.slots position slot } }
    {
        let number = number_of(self.origin, position, self.slots.len());
        self.slots[number] = slot;
    }
}

/// The place in a ring that lies so far behind a place.
pub(crate) fn number_of(origin: usize, position: usize, len: usize) -> usize
    requires origin { origin < len }
    requires position { position < len }
    ensures { result ≡ place_in_turn origin len position }
{
    let room = len - origin;
    if position < room {
        origin + position
    } else {
        position - room
    }
}
