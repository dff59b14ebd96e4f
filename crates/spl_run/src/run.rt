//! The run of a script by one caller over a desk.
ghost use Rattle.std.specs.Prelude.{◌≡◌, ◌<◌, ◌≤◌, ◌^◌, true, [], None, Some, All};
ghost use Rattle.spl_message.specs.History.{History};
ghost use Rattle.spl_desk.specs.Branches.{branch_kind};
ghost use Rattle.spl_desk.specs.Calls.{HasCalled, HasSeen, MadeFew, MayCall, NeverFell};
ghost use Rattle.spl_desk.specs.Walk.{Went};
ghost use Rattle.spl_script.specs.Verb.{IsDeed, IsPutOrLook};
ghost use Rattle.spl_run.specs.Run.{AreGoing, Logs, Runs};
ghost use Rattle.spl_run.specs.Status.{IsRunOf, cause_of, status_of_cause};
ghost use Rattle.spl_run.specs.Turns.{EndsFor, counted};

use crate::calls::make_call;
use crate::scan::run_scan;
use spl_branch::Branch;
use spl_desk::{Desk, Turns};
use spl_message::{Answer, Call, Cause, MergeLaw};
use spl_pager::Pager;
use spl_port::Port;
use spl_report::Row;
use spl_script::{Deed, ScriptLine, Scripts};

/// The rows of a run, and its status.
#[derive(Drop)]
pub(crate) struct Ran {
    pub(crate) rows: Vec<Row>,
    pub(crate) status: u8,
}

/// Why an answer was stopped, where it was.
pub(crate) fn cause_of(answer: &Answer) -> Option<Cause>
    ensures { result ≡ cause_of answer.now }
{
    match answer {
        Answer::Stopped(cause) => Some(*cause),
        Answer::Done | Answer::Missing | Answer::Value(_) | Answer::Pairs { .. } => None,
    }
}

/// The status of a run that was stopped.
fn status_of(cause: Cause) -> u8
    ensures { result ≡ status_of_cause (Some cause) }
{
    match cause {
        Cause::Fault => 5,
        Cause::Full => 6,
        Cause::Memory => 7,
        Cause::Damaged => 8,
        Cause::Nodes => 9,
        Cause::Spent => 10,
    }
}

/// Makes the call at the next place, and puts its row behind the others. The row has its room before the call is made, so no
/// call that was made goes unreported.
fn run_call<T: Turns<Branch<P::Seal>>, P: Port, G: Pager, L: MergeLaw>(
    desk: &mut Desk<'_, T, P, G, L>,
    rows: &mut Vec<Row>,
    caller: u32,
    call: &Call,
) -> Result<(), Cause>
    requires known { IsPutOrLook call.now }
    requires turns { (T.means desk.old.turns).turns < 2 ^ 41 }
    requires ready { T.ready desk.old.turns }
    requires nothing { MayCall (T.means desk.old.turns) }
    requires seen { HasSeen (T.saw desk.old.turns) }
    requires law { L.rule desk.old.law.now ≡ (T.means desk.old.turns).rule }
    requires lawful { L.ready desk.old.law.now }
    requires alone { (T.means desk.old.turns).alone ≡ true }
    ensures called { HasCalled (T.means desk.old.turns) (T.means desk.new.turns) }
    ensures few { MadeFew (T.means desk.old.turns) (T.means desk.new.turns) 1 }
    ensures ready { T.ready desk.new.turns }
    ensures law { desk.new.law.now ≡ desk.old.law.now }
    ensures device { desk.new.port.ghost_name ≡ desk.old.port.ghost_name }
    ensures pager { desk.new.pager.now ≡ desk.old.pager.now }
    ensures port { NeverFell (P.counts desk.old.port.now) (P.counts desk.new.port.now) }
    ensures logged { (history : History) → T.saw desk.old.turns history → Went (branch_kind P.Seal.TELLS)
        (T.means desk.old.turns) history (T.means desk.new.turns) (T.saw desk.new.turns)
        (Logs P.Seal.TELLS (T.means desk.old.turns) history (P.counts desk.old.port.now) (P.counts desk.new.port.now)
        (T.means desk.new.turns).turns rows.old.items rows.new.items caller call.now
        (λ answer. cause_of answer ≡ None) result) }
{
    if rows.reserve(1).is_err() {
        return Err(Cause::Memory);
    }
    let Ok(copy) = call.copy() else {
        return Err(Cause::Memory);
    };
    let made = make_call(desk, call);
    let cause = cause_of(&made.answer);
    let row = Row {
        place: made.place,
        caller,
        call: copy,
        answer: made.answer,
    };
    rows.push(row).unwrap();
    match cause {
        None => Ok(()),
        Some(cause) => Err(cause),
    }
}

/// Does what the line asks for, and puts its rows behind those of the lines before it.
fn run_line<T: Turns<Branch<P::Seal>>, P: Port, G: Pager, L: MergeLaw>(
    desk: &mut Desk<'_, T, P, G, L>,
    rows: &mut Vec<Row>,
    line: &ScriptLine,
) -> Result<(), Cause>
    requires known { IsDeed line.now.deed }
    requires first { line.now.caller ≡ 0 }
    requires turns { (T.means desk.old.turns).turns < 2 ^ 41 }
    requires ready { T.ready desk.old.turns }
    requires nothing { MayCall (T.means desk.old.turns) }
    requires law { L.rule desk.old.law.now ≡ (T.means desk.old.turns).rule }
    requires lawful { L.ready desk.old.law.now }
    requires alone { (T.means desk.old.turns).alone ≡ true }
    requires caller { (T.means desk.old.turns).actor ≡ 0 }
    requires going { AreGoing (T.means desk.old.turns).rule P.Seal.TELLS rows.old.items }
    requires seen { T.saw desk.old.turns (counted rows.old.items) }
    ensures called { HasCalled (T.means desk.old.turns) (T.means desk.new.turns) }
    ensures few { MadeFew (T.means desk.old.turns) (T.means desk.new.turns) 1 }
    ensures ready { T.ready desk.new.turns }
    ensures law { desk.new.law.now ≡ desk.old.law.now }
    ensures device { desk.new.port.ghost_name ≡ desk.old.port.ghost_name }
    ensures pager { desk.new.pager.now ≡ desk.old.pager.now }
    ensures port { NeverFell (P.counts desk.old.port.now) (P.counts desk.new.port.now) }
    ensures runs { Went (branch_kind P.Seal.TELLS) (T.means desk.old.turns) (counted rows.old.items)
        (T.means desk.new.turns) (T.saw desk.new.turns) (Runs (T.means desk.old.turns).rule P.Seal.TELLS
        (P.counts desk.old.port.now) (P.counts desk.new.port.now) (T.means desk.new.turns).turns
        rows.old.items rows.new.items line.now.deed result) }
{
    match &line.deed {
        Deed::One(call) => run_call(desk, rows, line.caller, call),
        Deed::Scan(span) => run_scan(desk, rows, line.caller, span),
    }
}

/// Runs the script of caller 0, line by line, until its end or until a call is stopped.
pub(crate) fn run<T: Turns<Branch<P::Seal>>, P: Port, G: Pager, L: MergeLaw>(
    desk: &mut Desk<'_, T, P, G, L>,
    script: &Scripts,
) -> Ran
    requires callers { All (λ line. line.caller < 1) script.now }
    requires turns { (T.means desk.old.turns).turns ≤ 2 ^ 40 }
    requires ready { T.ready desk.old.turns }
    requires nothing { MayCall (T.means desk.old.turns) }
    requires fresh { T.saw desk.old.turns [] }
    requires law { L.rule desk.old.law.now ≡ (T.means desk.old.turns).rule }
    requires lawful { L.ready desk.old.law.now }
    requires alone { (T.means desk.old.turns).alone ≡ true }
    requires caller { (T.means desk.old.turns).actor ≡ 0 }
    ensures called { HasCalled (T.means desk.old.turns) (T.means desk.new.turns) }
    ensures device { desk.new.port.ghost_name ≡ desk.old.port.ghost_name }
    ensures port { NeverFell (P.counts desk.old.port.now) (P.counts desk.new.port.now) }
    ensures rows { IsRunOf (T.means desk.old.turns).rule P.Seal.TELLS script.now result.rows.items result.status }
    ensures walk { Went (branch_kind P.Seal.TELLS) (T.means desk.old.turns) [] (T.means desk.new.turns)
        (T.saw desk.new.turns) (λ turns seen. (seen ≡ counted result.rows.items)
        × EndsFor P.Seal.TELLS (P.counts desk.old.port.now) (P.counts desk.new.port.now)
        (T.means desk.new.turns).turns turns result.rows.items result.status) }
{
    let mut rows = Vec::new(desk.alloc);
    let lines = script.lines();
    for line in lines {
        match run_line(desk, &mut rows, line) {
            Ok(()) => (),
            Err(cause) => {
                return Ran {
                    rows,
                    status: status_of(cause),
                };
            }
        }
    }
    Ran { rows, status: 0 }
}
