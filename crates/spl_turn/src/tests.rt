ghost use Rattle.std.specs.Prelude.{◌≡◌, ◌+◌, ◌<◌, ◌^◌, ◌≤◌, All, length, refl};
ghost use Rattle.spl_turn.specs.Whose.{IsSeatOf};

use crate::{Seat, SeatOf, Seats, StandsFor, Turn, Unclosed};
use std::alloc::Global;
use std::process::Abort;
use std::sync::Wait;
use std::test::Fail;
use std::thread;
use std::thread::Threads;

/// A number that each step raises by one.
#[derive(Drop)]
struct Counter {
    count: u64,
}

/// The step of a counter.
#[derive(Drop)]
struct Raise;

impl StandsFor for Counter {
    type Step = Raise;

    type Reply = u64;

    type Entry = u32;

    type Fixed = ();

    ghost means = { record {
      stands = λ counter past. counter.count ≡ length past;
      may = λ actor mine step. Unit {0};
      entry = λ before actor step reply after. actor;
      maker = λ actor. actor;
      made_by = λ before actor step reply after. refl;
      fixed = λ counter. tt;
    } };

    fn step(&mut self, _actor: u32, _step: Raise) -> u64 {
        self.count += 1;
        self.count
    }
}

/// A turn over a counter, its first seat, and others, so that there are as many as asked for.
fn seated(
    rt: &impl Abort,
    alloc: Global,
    seats: u32,
) -> (Turn<Counter>, SeatOf<Counter>, Vec<SeatOf<Counter>>)
    requires { (0 < seats) × (seats ≤ 32) }
    ensures turns { IsSeatOf result.0 result.1 × All (λ seat. IsSeatOf result.0 seat × (seat.turns ≡ 0)) result.2.items }
    ensures first { (result.1.turns ≡ 0) × (result.1.made ≡ seats) × (length result.2.items + 1 ≡ seats) }
{
    let (turn, mut first) = Turn::new(alloc, Counter { count: 0 }).expect(rt, "memory");
    let mut others = Vec::new(alloc);
    for _ in 1..seats {
        let Ok(other) = turn.split(&mut first) else {
            unreachable!()
        };
        others.push(other).expect(rt, "memory");
    }
    (turn, first, others)
}

/// Makes turns, and says whether each reply is above the one before.
fn rises<R: Wait>(rt: &R, turn: &Turn<Counter>, seat: &mut SeatOf<Counter>, turns: u32) -> bool
    requires turn { IsSeatOf turn.now seat.old }
    requires room { seat.old.turns < 2 ^ 40 }
    ensures same { IsSeatOf turn.now seat.new × (seat.new.turns ≡ seat.old.turns + turns) × (seat.new.made ≡ seat.old.made) }
{
    let mut last = 0;
    let mut rose = true;
    for _ in 0..turns {
        let count = turn.turn(rt, seat, Raise);
        rose = rose && count > last;
        last = count;
    }
    rose
}

#[test]
fn there_are_thirty_two_seats(rt: HostRuntime) -> Result<(), Fail> {
    let (turn, mut first, others) = seated(&rt, rt.alloc(), 32);
    assert_eq!(rt; others.len(), 31);
    match turn.split(&mut first) {
        Ok(_) => panic!(rt; "a seat more than there are"),
        Err(refused) => assert_eq!(rt; refused, Seats { made: 32 }),
    }
    Ok(())
}

#[test]
fn a_turn_stays_open_while_a_seat_is_missing(rt: HostRuntime) -> Result<(), Fail> {
    let (turn, first, mut others) = seated(&rt, rt.alloc(), 32);
    let missing = others.pop();
    assert!(rt; missing.is_some());
    match turn.close(first, others) {
        Ok(_) => panic!(rt; "closed with a seat missing"),
        Err(back) => {
            assert_eq!(rt; (back.made, back.gathered, back.others.len()), (32, 31, 30));
        }
    }
    Ok(())
}

#[test]
fn two_seats_count_together(rt: HostRuntime) -> Result<(), Fail> {
    let (turn, mut first, mut others) = seated(&rt, rt.alloc(), 2);
    let Some(mut second) = others.pop() else {
        unreachable!()
    };
    assert_eq!(rt; (first.number(), second.number()), (0, 1));
    assert!(rt; rises(&rt, &turn, &mut first, 3) && rises(&rt, &turn, &mut second, 4));
    assert_eq!(rt; turn.turn(&rt, &mut first, Raise), 8);
    assert_eq!(rt; (first.turns(), second.turns()), (4, 4));
    others.push(second)?;
    match turn.close(first, others) {
        Ok(counter) => assert_eq!(rt; counter.count, 8),
        Err(_) => panic!(rt; "all seats are there"),
    }
    Ok(())
}

/// Makes turns with all seats at the same time, each in a thread.
fn run_all<R: Threads + Wait + Abort + Sync>(
    rt: &R,
    turn: &Turn<Counter>,
    seats: &mut [SeatOf<Counter>],
)
    requires { All (λ seat. IsSeatOf turn.now seat × (seat.turns ≡ 0)) seats.old }
{
    let run = |_place: usize, seat: &mut SeatOf<Counter>|
        requires { IsSeatOf turn.now seat.now × (seat.now.turns ≡ 0) }
    { assert!(rt; rises(rt, turn, seat, 10_000)) };
    thread::for_each_mut(rt, seats, 8, &run);
}

#[test]
fn eight_threads_count_together(rt: HostRuntime) -> Result<(), Fail> {
    let (turn, mut first, mut others) = seated(&rt, rt.alloc(), 9);
    run_all(&rt, &turn, others.as_mut_slice());
    assert_eq!(rt; turn.turn(&rt, &mut first, Raise), 80_001);
    Ok(())
}
