//! The rule of the table, and the names of its steps.
ghost use Rattle.spl_turn.specs.Rule.{Kept};
ghost use Rattle.spl_turn.specs.Moves.{opening, counted, another, joined, spent, entered, added, lain, risen, looked};

use crate::guarded::Guarded;
use crate::known::Known;
use crate::stands_for::StandsFor;
use atomic_table::{Join, Play, Split, TableRule};
use std::marker::PhantomData;
use std::snapshot::Snapshot;

/// The slot of a turn's table.
pub type SlotOf<V> = Guarded<V, <V as StandsFor>::Step, <V as StandsFor>::Reply>;

/// What a seat of a turn knows.
pub type KnownOf<V> = Known<<V as StandsFor>::Entry, <V as StandsFor>::Fixed>;

/// All steps are one history, of which each seat has seen a prefix.
pub struct OneHistory<V> {
    value: PhantomData<V>,
}

impl<V: StandsFor> TableRule<SlotOf<V>, KnownOf<V>, Snapshot<V>> for OneHistory<V> {
    ghost holds = { λ _. Kept V.means };

    ghost first = { λ value. opening (V.means.fixed value.value) };
}

/// A seat takes the value.
pub(crate) struct Enter<V> {
    value: PhantomData<V>,
}

impl<V: StandsFor> Play<SlotOf<V>, KnownOf<V>> for Enter<V> {
    ghost then = { entered V.means };
}

/// A seat gives the value back, and adds the entry of its step.
pub(crate) struct Leave<V> {
    value: PhantomData<V>,
}

impl<V: StandsFor> Play<SlotOf<V>, KnownOf<V>> for Leave<V> {
    ghost then = { added V.means };
}

/// A seat counts itself among those who sleep.
pub(crate) struct LieDown<V> {
    value: PhantomData<V>,
}

impl<V: StandsFor> Play<SlotOf<V>, KnownOf<V>> for LieDown<V> {
    ghost then = { lain V.means };
}

/// It no longer does.
pub(crate) struct GetUp<V> {
    value: PhantomData<V>,
}

impl<V: StandsFor> Play<SlotOf<V>, KnownOf<V>> for GetUp<V> {
    ghost then = { risen V.means };
}

/// A seat looks at the record.
pub(crate) struct Look<V> {
    value: PhantomData<V>,
}

impl<V: StandsFor> Play<SlotOf<V>, KnownOf<V>> for Look<V> {
    ghost then = { looked V.means };
}

/// The first seat makes another.
pub(crate) struct Another;

impl<E, F> Split<Known<E, F>> for Another {
    ghost left = { counted };

    ghost right = { another };
}

/// The first seat takes in another one.
pub(crate) struct Gather;

impl<E, F> Join<Known<E, F>> for Gather {
    ghost both = { joined };

    ghost spent = { spent };
}
