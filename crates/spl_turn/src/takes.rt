ghost use Rattle.std.specs.Prelude.{◌≡◌, ◌<◌, ◌^◌, [], MatchBool};
ghost use Rattle.spl_turn.specs.Meaning.{own};
ghost use Rattle.spl_turn.specs.Moves.{Took, Makes, Held, MayMake, MayLeave, Added};
ghost use Rattle.spl_turn.specs.Seating.{IsReady};
ghost use Rattle.spl_turn.specs.Turning.{seen_by, Turned};
ghost use Rattle.spl_turn.specs.Whose.{IsSeatOf, table_of};

use crate::history::{Enter, GetUp, Leave, LieDown};
use crate::make::make;
use crate::seat::{PlaceOf, SeatOf};
use crate::stands_for::StandsFor;
use crate::turn::{HISTORY, SLEEPERS, Turn};
use std::hint::spin_loop;
use std::sync::Wait;
use std::thread::yield_now;

/// How often a seat looks at the history's word before it yields, and how often it yields before it sleeps.
const LOOKS: u32 = 32;

const YIELDS: u32 = 16;

impl<V: StandsFor> Turn<V> {
    /// Makes one step on the value, and adds one entry to the record: the step's. It waits while others make theirs.
    pub fn turn<R: Wait>(&self, rt: &R, seat: &mut SeatOf<V>, step: V::Step) -> V::Reply
        requires turn { IsSeatOf self.now seat.old }
        requires room { seat.old.turns < 2 ^ 41 }
        requires may { V.means.may seat.old.number (own V.means seat.old.number (seen_by seat.old)) step }
        ensures { Turned V.means seat.old seat.new step result }
    {
        let number = seat.number;
        let reply = self.make_at(rt, &mut seat.place, number, step);
        seat.turns += 1;
        reply
    }

    fn make_at<R: Wait>(
        &self,
        rt: &R,
        place: &mut PlaceOf<V>,
        number: u32,
        step: V::Step,
    ) -> V::Reply
        requires turn { place.old.table_id ≡ table_of self.now }
        requires ready { IsReady place.old.me × (place.old.me.1 ≡ []) }
        requires number { (number ≡ place.old.me.0.number) × (number < 32) }
        requires may { V.means.may number (own V.means number place.old.me.0.seen) step }
        ensures turn { (place.new.table_id ≡ place.old.table_id) × (place.new.id ≡ place.old.id) }
        ensures makes { Makes V.means place.old.me place.new.me step result }
    {
        self.enter(rt, place);
        let reply = self.hold(place, number, step);
        self.leave(place);
        reply
    }

    /// Makes the step on the value that the seat has taken.
    fn hold(&self, place: &mut PlaceOf<V>, number: u32, step: V::Step) -> V::Reply
        requires turn { place.old.table_id ≡ table_of self.now }
        requires held { MayMake V.means place.old.me number step }
        ensures turn { (place.new.table_id ≡ place.old.table_id) × (place.new.id ≡ place.old.id) }
        ensures made { Held V.means place.old.me place.new.me number step result }
    {
        let slot = place.slot_mut(&self.table.shared, 0);
        make(slot, number, step)
    }

    /// Waits for the value, and takes it.
    fn enter<R: Wait>(&self, rt: &R, place: &mut PlaceOf<V>)
        requires turn { place.old.table_id ≡ table_of self.now }
        requires ready { IsReady place.old.me }
        ensures turn { (place.new.table_id ≡ place.old.table_id) × (place.new.id ≡ place.old.id) }
        ensures took { Took V.means place.old.me place.new.me }
    {
        let mut looks = 0;
        for _ in rt.forever() {
            if self.take(place) {
                break;
            }
            self.wait(rt, place, looks);
            if looks < LOOKS + YIELDS {
                looks += 1;
            }
        }
    }

    /// Takes the value if no seat has it.
    fn take(&self, place: &mut PlaceOf<V>) -> bool
        requires turn { place.old.table_id ≡ table_of self.now }
        requires ready { IsReady place.old.me }
        ensures turn { (place.new.table_id ≡ place.old.table_id) × (place.new.id ≡ place.old.id) }
        ensures took { MatchBool result (Took V.means place.old.me place.new.me) (place.new.me ≡ place.old.me) }
    {
        let shared = &self.table.shared;
        let word = shared.peek(HISTORY);
        if word % 2 != 0 {
            return false;
        }
        shared.compare_exchange::<Enter<V>>(place, HISTORY, word, word + 1) == word
    }

    fn wait<R: Wait>(&self, rt: &R, place: &mut PlaceOf<V>, looks: u32)
        requires turn { place.old.table_id ≡ table_of self.now }
        requires ready { IsReady place.old.me }
        ensures { (place.new.table_id ≡ place.old.table_id) × (place.new.id ≡ place.old.id) × (place.new.me ≡ place.old.me) }
    {
        if looks < LOOKS {
            spin_loop();
        } else if looks < LOOKS + YIELDS {
            yield_now();
        } else {
            self.sleep(rt, place);
        }
    }

    /// Sleeps while a turn is made. It counts itself before it looks again, so whoever leaves then wakes it.
    fn sleep<R: Wait>(&self, rt: &R, place: &mut PlaceOf<V>)
        requires turn { place.old.table_id ≡ table_of self.now }
        requires ready { IsReady place.old.me }
        ensures { (place.new.table_id ≡ place.old.table_id) × (place.new.id ≡ place.old.id) × (place.new.me ≡ place.old.me) }
    {
        let shared = &self.table.shared;
        shared.fetch_add::<LieDown<V>>(place, SLEEPERS, 1);
        let low = shared.peek(HISTORY) % (1 << 32);
        if low % 2 == 1 {
            shared.park(rt, HISTORY, low as u32);
        }
        shared.fetch_sub::<GetUp<V>>(place, SLEEPERS, 1);
    }

    /// Gives the value back, adds the entry of the step that was made on it, and wakes a seat that sleeps.
    fn leave(&self, place: &mut PlaceOf<V>)
        requires turn { place.old.table_id ≡ table_of self.now }
        requires held { MayLeave V.means place.old.me }
        ensures turn { (place.new.table_id ≡ place.old.table_id) × (place.new.id ≡ place.old.id) }
        ensures added { Added V.means place.old.me place.new.me }
    {
        self.table.shared.fetch_add::<Leave<V>>(place, HISTORY, 1);
        self.wake();
    }

    fn wake(&self) {
        if self.table.shared.peek(SLEEPERS) > 0 {
            self.table.shared.wake_one(HISTORY);
        }
    }
}
