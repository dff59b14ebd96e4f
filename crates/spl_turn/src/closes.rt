ghost use Rattle.std.specs.Prelude.{◌≡◌, ◌<◌, ◌+◌, [], ◌∷◌, ◌↔◌, IfOk, IfErr, IsOk, All, Some, map, min, length};
ghost use Rattle.spl_turn.specs.Rule.{sights};
ghost use Rattle.spl_turn.specs.Turning.{sight_of, fixed_of, Gathers, StandsForAll};
ghost use Rattle.spl_turn.specs.Whose.{IsSeatOf, table_of};
ghost use Rattle.spl_turn.specs.declared.known.Stage.TheVariants.{Idle};

use crate::guarded::Guarded;
use crate::history::Gather;
use crate::seat::{PlaceOf, Seat, SeatOf};
use crate::stands_for::StandsFor;
use crate::turn::{TableOf, Turn};

/// Not all seats were gathered. Everything is given back.
#[derive(Drop)]
pub struct Unclosed<V: StandsFor> {
    pub made: u32,
    pub gathered: u32,
    pub turn: Turn<V>,
    pub seat: SeatOf<V>,
    pub others: Vec<SeatOf<V>>,
}

impl<V: StandsFor> Turn<V> {
    /// Gives the value back if the seats are all that were made: the first one, and the others. Else it gives
    /// everything back.
    pub fn close(self, seat: SeatOf<V>, others: Vec<SeatOf<V>>) -> Result<V, Unclosed<V>>
        requires turn { IsSeatOf self seat }
        requires turns { All (IsSeatOf self) others.items }
        requires first { 0 < seat.made }
        ensures value { IfOk result (λ value. StandsForAll V.means value (sight_of seat ∷ map sight_of others.items) × (fixed_of seat ≡ Some (V.means.fixed value))) }
        ensures back { IfErr result (λ all. (all.made ≡ seat.made) × (all.gathered ≡ min (length others.items + 1) 4294967295) × (all.turn ≡ self) × (all.seat ≡ seat) × (all.others ≡ others)) }
        ensures gathered { IsOk result ↔ (seat.made ≡ length others.items + 1) }
    {
        let made = seat.made;
        let gathered = with_the_first(others.len());
        if gathered != made {
            return Err(Unclosed {
                made,
                gathered,
                turn: self,
                seat,
                others,
            });
        }
        let Seat {
            place,
            number: _,
            turns: _,
            made: _,
        } = seat;
        let place = self.gather(place, others);
        let Turn { table } = self;
        Ok(take_value(table, place))
    }

    /// Joins the other seats into the first one.
    fn gather(&self, place: PlaceOf<V>, others: Vec<SeatOf<V>>) -> PlaceOf<V>
        requires turn { place.table_id ≡ table_of self.now }
        requires turns { All (IsSeatOf self.now) others.items }
        requires first { (0 < place.me.0.made) × (place.me.0.seats ≡ 1) × (place.me.0.joined ≡ []) × (place.me.0.stage ≡ Idle) × (place.me.1 ≡ []) }
        ensures turn { result.table_id ≡ place.table_id }
        ensures all { Gathers place.me result.me (map sight_of others.items) }
    {
        let mut first = place;
        let mut others = others;
        while let Some(other) = others.pop() {
            let Seat {
                place,
                number: _,
                turns: _,
                made: _,
            } = other;
            self.table.shared.join_seat::<Gather>(&mut first, place);
        }
        first
    }
}

/// How many seats there are with the first one. Saturates at `u32::MAX`.
fn with_the_first(others: usize) -> u32
    ensures { result ≡ min (others + 1) 4294967295 }
{
    if others < u32::MAX as usize {
        others as u32 + 1
    } else {
        u32::MAX
    }
}

/// The value of a table, once one place stands for all seats.
fn take_value<V: StandsFor>(table: TableOf<V>, place: PlaceOf<V>) -> V
    requires turn { (place.table_id ≡ table.shared.table_id) × (table.shared.table_id.slots ≡ 1) }
    requires first { (0 < place.me.0.made) × (place.me.0.seats ≡ place.me.0.made) × (length (sights place.me.0) ≡ place.me.0.made) × (place.me.0.stage ≡ Idle) }
    ensures value { StandsForAll V.means result (sights place.me.0) }
    ensures fixed { place.me.0.fixed ≡ Some (V.means.fixed result) }
{
    let mut closed = table.close_with(place);
    let slot = closed.take(0);
    closed.free();
    let Guarded { value, last: _ } = slot;
    value
}
