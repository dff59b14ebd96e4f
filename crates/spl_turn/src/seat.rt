ghost use Rattle.std.specs.Prelude.{◌≡◌};
ghost use Rattle.spl_turn.specs.Seating.{Rests};

use crate::guarded::Guarded;
use crate::history::{KnownOf, SlotOf};
use crate::known::Known;
use crate::stands_for::StandsFor;

/// A place at a turn's table.
pub(crate) type PlaceOf<V> = atomic_table::Seat<SlotOf<V>, KnownOf<V>>;

/// What a thread makes its turns with. The types are those of the turn's value.
#[derive(Drop)]
pub struct Seat<V, S, R, E, F> {
    pub(crate) number: u32,
    pub(crate) turns: u64,
    pub(crate) made: u32,
    pub(crate) place: atomic_table::Seat<Guarded<V, S, R>, Known<E, F>>,
    ghost rests: { Rests place.me number turns made },
}

/// A seat of the turn over a `V`.
pub type SeatOf<V> = Seat<
    V,
    <V as StandsFor>::Step,
    <V as StandsFor>::Reply,
    <V as StandsFor>::Entry,
    <V as StandsFor>::Fixed,
>;

impl<V, S, R, E, F> Seat<V, S, R, E, F> {
    /// The actor of its steps. It is less than 32, and no other seat of the turn has it.
    pub fn number(&self) -> u32
        ensures { result ≡ self.now.number }
    {
        self.number
    }

    /// How many turns it made.
    pub fn turns(&self) -> u64
        ensures { result ≡ self.now.turns }
    {
        self.turns
    }
}
