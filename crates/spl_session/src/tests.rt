ghost use Rattle.std.specs.Prelude.{◌≡◌, ◌<◌, ◌≤◌, ◌^◌, true, OnOk};
ghost use Rattle.spl_message.specs.History.{History};
ghost use Rattle.spl_message.specs.Rule.{newest};
ghost use Rattle.spl_state.specs.View.{branch_data};
ghost use Rattle.spl_core.specs.Standing.{StandsFor, Knows};
ghost use Rattle.spl_desk.specs.Holder.{IsSameHolder, kind_of};
ghost use Rattle.spl_desk.specs.Turn.{MadeTurn};
ghost use Rattle.spl_session.specs.Calling.{MayAsk, late_holder};

use crate::{Found, Session, Stopped};
use spl_alone::Alone;
use spl_branch::Branch;
use spl_core::{Core, Step};
use spl_desk::{CallFault, Desk, Exchange, Turns, take_turn};
use spl_message::{Content, Key, MergeLaw, Newest, Value};
use spl_pager::{Direct, Pager};
use spl_port::{MemPort, Port};
use spl_state::Reply;
use std::test::Fail;

/// The only holder of a core, which has made more steps than the core counts.
#[derive(Drop)]
struct Late<B: Content> {
    alone: Alone<B, Newest>,
    turns: u64,
    ghost few: { alone.core.parts.counters.steps ≤ turns },
}

impl<B: Content> Late<B> {
    /// Makes one step of the core.
    fn make(&mut self, step: Step<B>) -> Reply<B>
        requires turns { self.old.turns < 2 ^ 41 }
        requires knows { B.TELLS ≡ true → Knows B.table newest self.old.alone.core.parts 0 step }
        ensures same { IsSameHolder (late_holder self.old.turns self.old.alone.core.parts)
            (late_holder self.new.turns self.new.alone.core.parts) 1 }
        ensures turn { (history : History) → StandsFor newest B.TELLS self.old.alone.core.parts history → MadeTurn
            (kind_of B.number (branch_data B.extents B.entries B.cuts B.table) B.TELLS)
            (late_holder self.old.turns self.old.alone.core.parts)
            (late_holder self.new.turns self.new.alone.core.parts) history step result
            (StandsFor newest B.TELLS self.new.alone.core.parts) }
    {
        self.turns += 1;
        take_turn(&mut self.alone, step)
    }
}

impl<B: Content> Turns<B> for Late<B> {
    ghost use Rattle.std.specs.Prelude.{◌≡◌, ◌<◌, ◌^◌, true, IsSome, IfSome};
    ghost use Rattle.spl_message.specs.History.{History};
    ghost use Rattle.spl_message.specs.Rule.{newest};
    ghost use Rattle.spl_state.specs.View.{branch_data};
    ghost use Rattle.spl_core.specs.Standing.{StandsFor, Knows};
    ghost use Rattle.spl_desk.specs.Holder.{IsSameHolder, kind_of};
    ghost use Rattle.spl_desk.specs.Turn.{MadeTurn};
    ghost use Rattle.spl_session.specs.Calling.{late_holder};

    ghost means = { λ late. late_holder late.turns late.alone.core.parts };

    ghost ready = { λ _. Unit {0} };

    ghost saw = { λ late history. StandsFor newest B.TELLS late.alone.core.parts history };

    fn actor(&self) -> u32 {
        0
    }

    fn turns(&self) -> u64 {
        self.turns
    }

    fn step(&mut self, exchange: &mut Exchange<B>)
        requires turns { self.old.turns < 2 ^ 41 }
        requires ready { Unit {0} }
        requires asked { IsSome exchange.old.step }
        requires knows { B.TELLS ≡ true → IfSome exchange.old.step (Knows B.table newest self.old.alone.core.parts 0) }
        ensures same { IsSameHolder (late_holder self.old.turns self.old.alone.core.parts)
            (late_holder self.new.turns self.new.alone.core.parts) 1 }
        ensures ready { Unit {0} }
        ensures answered { IsSome exchange.new.reply }
        ensures turn { (history : History) → StandsFor newest B.TELLS self.old.alone.core.parts history
            → IfSome exchange.old.step (λ step. IfSome exchange.new.reply (λ reply. MadeTurn
            (kind_of B.number (branch_data B.extents B.entries B.cuts B.table) B.TELLS)
            (late_holder self.old.turns self.old.alone.core.parts)
            (late_holder self.new.turns self.new.alone.core.parts) history step reply
            (StandsFor newest B.TELLS self.new.alone.core.parts))) }
    {
        let step = exchange.step.take().unwrap();
        exchange.reply = Some(self.make(step));
    }
}

/// Inserts a value; a call may be made afterwards.
fn insert<T: Turns<Branch<P::Seal>>, P: Port, G: Pager, L: MergeLaw>(
    session: &mut Session<'_, T, P, G, L>,
    key: &Key,
    value: &Value,
) -> Result<u64, CallFault>
    requires { MayAsk (T.means session.old.desk.turns) (T.saw session.old.desk.turns) (T.ready session.old.desk.turns)
        (L.rule session.old.desk.law.now) (L.ready session.old.desk.law.now) }
    ensures { OnOk result (MayAsk (T.means session.new.desk.turns) (T.saw session.new.desk.turns) (T.ready session.new.desk.turns)
        (L.rule session.new.desk.law.now) (L.ready session.new.desk.law.now)) }
{
    session.insert(key, value)
}

/// Updates a key; a call may be made afterwards.
fn update<T: Turns<Branch<P::Seal>>, P: Port, G: Pager, L: MergeLaw>(
    session: &mut Session<'_, T, P, G, L>,
    key: &Key,
    operand: &Value,
) -> Result<u64, CallFault>
    requires { MayAsk (T.means session.old.desk.turns) (T.saw session.old.desk.turns) (T.ready session.old.desk.turns)
        (L.rule session.old.desk.law.now) (L.ready session.old.desk.law.now) }
    ensures { OnOk result (MayAsk (T.means session.new.desk.turns) (T.saw session.new.desk.turns) (T.ready session.new.desk.turns)
        (L.rule session.new.desk.law.now) (L.ready session.new.desk.law.now)) }
{
    session.update(key, operand)
}

/// Deletes a key; a call may be made afterwards.
fn delete<T: Turns<Branch<P::Seal>>, P: Port, G: Pager, L: MergeLaw>(
    session: &mut Session<'_, T, P, G, L>,
    key: &Key,
) -> Result<u64, CallFault>
    requires { MayAsk (T.means session.old.desk.turns) (T.saw session.old.desk.turns) (T.ready session.old.desk.turns)
        (L.rule session.old.desk.law.now) (L.ready session.old.desk.law.now) }
    ensures { OnOk result (MayAsk (T.means session.new.desk.turns) (T.saw session.new.desk.turns) (T.ready session.new.desk.turns)
        (L.rule session.new.desk.law.now) (L.ready session.new.desk.law.now)) }
{
    session.delete(key)
}

/// Looks a key up.
fn lookup<T: Turns<Branch<P::Seal>>, P: Port, G: Pager, L: MergeLaw>(
    session: &mut Session<'_, T, P, G, L>,
    key: &Key,
) -> Result<Found, Stopped>
    requires { MayAsk (T.means session.old.desk.turns) (T.saw session.old.desk.turns) (T.ready session.old.desk.turns)
        (L.rule session.old.desk.law.now) (L.ready session.old.desk.law.now) }
{
    session.lookup(key)
}

#[test]
fn calls_have_places_in_their_order(rt: HostRuntime) -> Result<(), Fail> {
    let alloc = rt.alloc();
    let core = Core::new(alloc, 8, 1, Newest)?;
    let mut port = MemPort::new(alloc);
    let mut session = Session {
        desk: Desk {
            alloc,
            turns: Alone::new(core),
            port: &mut port,
            pager: &Direct,
            law: &Newest,
        },
    };
    let key = Key::read(b"a")?;
    let value = Value::read(alloc, b"1")?;
    assert_eq!(rt; insert(&mut session, &key, &value)?, 0);
    assert_eq!(rt; update(&mut session, &key, &value)?, 1);
    assert_eq!(rt; delete(&mut session, &key)?, 2);
    let found = lookup(&mut session, &key)?;
    assert_eq!(rt; found.place, 3);
    assert!(rt; found.value.is_none());
    Ok(())
}

#[test]
fn a_key_is_found_once_it_was_inserted(rt: HostRuntime) -> Result<(), Fail> {
    let alloc = rt.alloc();
    let core = Core::new(alloc, 8, 1, Newest)?;
    let mut port = MemPort::new(alloc);
    let mut session = Session {
        desk: Desk {
            alloc,
            turns: Alone::new(core),
            port: &mut port,
            pager: &Direct,
            law: &Newest,
        },
    };
    let key = Key::read(b"a")?;
    let value = Value::read(alloc, b"1")?;
    insert(&mut session, &key, &value)?;
    let found = lookup(&mut session, &key)?;
    assert_eq!(rt; found.place, 1);
    assert!(rt; found.value == Some(value));
    Ok(())
}

#[test]
fn a_spent_holder_puts_nothing(rt: HostRuntime) -> Result<(), Fail> {
    let alloc = rt.alloc();
    let core = Core::new(alloc, 8, 1, Newest)?;
    let mut port = MemPort::new(alloc);
    let mut session = Session {
        desk: Desk {
            alloc,
            turns: Late {
                alone: Alone::new(core),
                turns: 1 << 40,
            },
            port: &mut port,
            pager: &Direct,
            law: &Newest,
        },
    };
    let key = Key::read(b"a")?;
    let value = Value::read(alloc, b"1")?;
    let spent = CallFault::Spent {
        turns: 1_099_511_627_776,
    };
    assert_eq!(rt; insert(&mut session, &key, &value), Err(spent));
    Ok(())
}
