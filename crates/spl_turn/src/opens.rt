ghost use Rattle.std.specs.Prelude.{◌≡◌, ◌<◌, [], ◌↔◌, IfOk, IfErr, IsErr};
ghost use Rattle.spl_turn.specs.Meaning.{own};
ghost use Rattle.spl_turn.specs.Moves.{counted, another};
ghost use Rattle.spl_turn.specs.Turning.{Opens, Splits};
ghost use Rattle.spl_turn.specs.Whose.{IsSeatOf, table_of};

use crate::guarded::Guarded;
use crate::history::{Another, Look};
use crate::seat::{PlaceOf, Seat, SeatOf};
use crate::stands_for::StandsFor;
use crate::turn::{HISTORY, Turn};
use atomic_table::Table;
use spl_base::NoMemory;
use std::alloc::Global;
use std::snapshot::Snapshot;

/// How many seats a turn has at most.
const MOST_SEATS: u32 = 32;

/// The turn has as many seats as it can have.
#[derive(Clone, Copy, Debug, PartialEq, Eq)]
pub struct Seats {
    pub made: u32,
}

impl<V: StandsFor> Turn<V> {
    /// A turn over the value, and its first seat.
    pub fn new(alloc: Global, value: V) -> Result<(Turn<V>, SeatOf<V>), NoMemory>
        requires { V.means.stands value [] }
        ensures { IfOk result (λ r. Opens V.means value r.1 × IsSeatOf r.0 r.1) }
    {
        let opening = Snapshot::of(&value);
        let mut slots = Vec::new(alloc);
        slots.push(Guarded { value, last: None })?;
        match Table::new(alloc, &[0, 0], slots, &opening) {
            Ok((table, place)) => Ok((
                Turn { table },
                Seat {
                    number: 0,
                    turns: 0,
                    made: 1,
                    place,
                },
            )),
            Err(_refused) => Err(NoMemory),
        }
    }

    /// Another seat, which has seen what the first seat has seen. The seat is the first one.
    pub fn split(&self, seat: &mut SeatOf<V>) -> Result<SeatOf<V>, Seats>
        requires turn { IsSeatOf self.now seat.old }
        requires first { 0 < seat.old.made }
        ensures ok { IfOk result (λ other. Splits V.means seat.old seat.new other) }
        ensures err { IfErr result (λ e. (e.made ≡ 32) × (seat.new ≡ seat.old)) }
        ensures spent { IsErr result ↔ (seat.old.made ≡ 32) }
    {
        let made = seat.made;
        if made >= MOST_SEATS {
            return Err(Seats { made });
        }
        let place = self.split_at(&mut seat.place);
        seat.made += 1;
        Ok(Seat {
            number: made,
            turns: 0,
            made: 0,
            place,
        })
    }

    fn split_at(&self, place: &mut PlaceOf<V>) -> PlaceOf<V>
        requires turn { place.old.table_id ≡ table_of self.now }
        requires first { (0 < place.old.me.0.made) × (place.old.me.0.made < 32) × (place.old.me.0.seats ≡ 1) }
        requires bare { place.old.me.1 ≡ [] }
        ensures turn { (place.new.table_id ≡ place.old.table_id) × (result.table_id ≡ place.old.table_id) }
        ensures place { place.new.me ≡ (counted place.old.me.0, []) }
        ensures another { result.me ≡ (another place.old.me.0, []) }
        ensures new { own V.means place.old.me.0.made place.old.me.0.seen ≡ [] }
    {
        let shared = &self.table.shared;
        shared.load::<Look<V>>(place, HISTORY);
        shared.split_seat::<Another>(place)
    }
}
