//! Measures a turn: `spl_turn_bench TURNS WORK`. Threads make so many turns in all, each a step of so many rounds of
//! work.
//!
//! One line for each count of threads, in nanoseconds a turn. `bench/turn.cc` does the same steps under a `std::mutex`.
#![tactic(auto)]

ghost use Rattle.std.specs.Prelude.{◌≡◌, ◌<◌, ◌≤◌, ◌+◌, ◌*◌, ◌^◌, All, length, refl};
ghost use Rattle.spl_turn.specs.Whose.{IsSeatOf};

use anyhow::{Result, ensure};
use spl_turn::{SeatOf, StandsFor, Turn};
use std::rt::{Clock, Env};
use std::sync::Wait;
use std::thread::Threads;
use std::time::Instant;
use std::{env, thread};

/// A number that each step mixes.
#[derive(Drop)]
struct Mixer {
    state: u64,
}

/// A step: so many rounds of work.
#[derive(Drop)]
struct Mix {
    rounds: u32,
}

impl StandsFor for Mixer {
    type Step = Mix;

    type Reply = u64;

    type Entry = u32;

    type Fixed = ();

    ghost means = { record {
      stands = λ mixer past. Unit {0};
      may = λ actor mine step. Unit {0};
      entry = λ before actor step reply after. actor;
      maker = λ actor. actor;
      made_by = λ before actor step reply after. refl;
      fixed = λ mixer. tt;
    } };

    fn step(&mut self, _actor: u32, step: Mix) -> u64 {
        let mut state = self.state;
        for _ in 0..step.rounds {
            state = (state ^ (state >> 7)).wrapping_mul(6364136223846793005);
        }
        self.state = state;
        state
    }
}

/// Makes so many turns.
fn work<R: Wait>(rt: &R, turn: &Turn<Mixer>, seat: &mut SeatOf<Mixer>, turns: u32, rounds: u32)
    requires turn { IsSeatOf turn.now seat.old }
    requires room { seat.old.turns < 2 ^ 40 }
    ensures { IsSeatOf turn.now seat.new × (seat.new.turns ≡ seat.old.turns + turns) }
{
    for _ in 0..turns {
        turn.turn(rt, seat, Mix { rounds });
    }
}

/// Makes turns with all seats at the same time, each in a thread.
fn work_all<R: Threads + Wait + Sync>(
    rt: &R,
    turn: &Turn<Mixer>,
    seats: &mut [SeatOf<Mixer>],
    turns: u32,
    rounds: u32,
)
    requires { All (λ seat. IsSeatOf turn.now seat × (seat.turns ≡ 0)) seats.old }
{
    let run = |_place: usize, seat: &mut SeatOf<Mixer>|
        requires { IsSeatOf turn.now seat.now × (seat.now.turns ≡ 0) }
    { work(rt, turn, seat, turns, rounds) };
    thread::for_each_mut(rt, seats, 31, &run);
}

/// The nanoseconds a turn, where so many threads make turns.
fn measure<R: Clock + Print + AllocGlobal + Threads + Wait + Sync>(
    rt: &R,
    threads: u32,
    turns: u32,
    rounds: u32,
) -> Result<()>
    requires { (0 < threads) × (threads < 32) }
{
    let (turn, mut first) = Turn::new(rt.alloc(), Mixer { state: 1 })?;
    let mut seats = Vec::new(rt.alloc());
    for _ in 0..threads {
        let Ok(seat) = turn.split(&mut first) else {
            unreachable!()
        };
        seats.push(seat)?;
    }
    let start = Instant::now(rt)?;
    work_all(rt, &turn, seats.as_mut_slice(), turns / threads, rounds);
    let took = start.elapsed(rt)?.as_nanos();
    let each = took / u128::from(turns.max(1));
    let state = turn.turn(rt, &mut first, Mix { rounds: 0 });
    println!(rt; "{threads} threads: {each} ns a turn ({state})")?;
    Ok(())
}

const USAGE: &str = "usage: spl_turn_bench TURNS WORK";

/// The two numbers that the words give.
fn asked<R: Env + AllocGlobal>(rt: &R) -> Result<Option<(u32, u32)>> {
    let mut words = env::args(rt)?.skip(1);
    let Some(turns) = words.next() else {
        return Ok(None);
    };
    let Some(rounds) = words.next() else {
        return Ok(None);
    };
    let Ok(turns) = turns.as_str().parse::<u32>() else {
        return Ok(None);
    };
    let Ok(rounds) = rounds.as_str().parse::<u32>() else {
        return Ok(None);
    };
    Ok(Some((turns, rounds)))
}

fn main(rt: HostRuntime) -> Result<()> {
    let Some((turns, rounds)) = asked(&rt)? else {
        println!(rt; "{USAGE}")?;
        return Ok(());
    };
    measure(&rt, 1, turns, rounds)?;
    measure(&rt, 4, turns, rounds)?;
    measure(&rt, 8, turns, rounds)?;
    measure(&rt, 16, turns, rounds)
}
