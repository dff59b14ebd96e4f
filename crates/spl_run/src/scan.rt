//! A scan of a run, in pieces: one row a piece.
ghost use Rattle.std.specs.Prelude.{◌≡◌, ◌<◌, ◌≤◌, ◌^◌, true, None, Some, OnOk};
ghost use Rattle.spl_message.specs.History.{History};
ghost use Rattle.spl_message.specs.declared.call.Call.TheVariants as call;
ghost use Rattle.spl_desk.specs.Branches.{branch_kind};
ghost use Rattle.spl_desk.specs.Calls.{HasCalled, HasSeen, MadeFew, MayCall, NeverFell};
ghost use Rattle.spl_desk.specs.Walk.{Went};
ghost use Rattle.spl_range.specs.Pieces.{IsLeft};
ghost use Rattle.spl_script.specs.declared.lines.Deed.TheVariants as deed;
ghost use Rattle.spl_run.specs.Legal.{IfPairs};
ghost use Rattle.spl_run.specs.Run.{AreGoing, Logs, Runs};
ghost use Rattle.spl_run.specs.Turns.{counted};

use crate::calls::make_piece;
use crate::run::cause_of;
use spl_branch::Branch;
use spl_desk::{Desk, Turns};
use spl_message::{Call, Cause, MergeLaw, Span};
use spl_pager::Pager;
use spl_port::Port;
use spl_range::Pieces;
use spl_report::Row;

/// Asks for the next piece, and puts its row behind the others. The row has its room before the piece is asked for.
fn run_piece<T: Turns<Branch<P::Seal>>, P: Port, G: Pager, L: MergeLaw>(
    desk: &mut Desk<'_, T, P, G, L>,
    rows: &mut Vec<Row>,
    caller: u32,
    pieces: &mut Pieces,
    left: Span,
) -> Result<(), Cause>
    requires left { pieces.old ≡ Some left }
    requires turns { (T.means desk.old.turns).turns < 2 ^ 41 }
    requires ready { T.ready desk.old.turns }
    requires nothing { MayCall (T.means desk.old.turns) }
    requires seen { HasSeen (T.saw desk.old.turns) }
    requires law { L.rule desk.old.law.now ≡ (T.means desk.old.turns).rule }
    requires lawful { L.ready desk.old.law.now }
    requires alone { (T.means desk.old.turns).alone ≡ true }
    ensures called { HasCalled (T.means desk.old.turns) (T.means desk.new.turns) }
    ensures few { MadeFew (T.means desk.old.turns) (T.means desk.new.turns) 1 }
    ensures ready { T.ready desk.new.turns }
    ensures law { desk.new.law.now ≡ desk.old.law.now }
    ensures device { desk.new.port.ghost_name ≡ desk.old.port.ghost_name }
    ensures pager { desk.new.pager.now ≡ desk.old.pager.now }
    ensures port { NeverFell (P.counts desk.old.port.now) (P.counts desk.new.port.now) }
    ensures logged { (history : History) → T.saw desk.old.turns history → Went (branch_kind P.Seal.TELLS)
        (T.means desk.old.turns) history (T.means desk.new.turns) (T.saw desk.new.turns)
        (Logs P.Seal.TELLS (T.means desk.old.turns) history (P.counts desk.old.port.now) (P.counts desk.new.port.now)
        (T.means desk.new.turns).turns rows.old.items rows.new.items caller (call.Piece left)
        (λ answer. IfPairs answer (λ end. IsLeft left end pieces.new)) result) }
    ensures turned { OnOk result (((T.means desk.old.turns).turns < (T.means desk.new.turns).turns)
        × ((T.means desk.new.turns).turns ≤ 2 ^ 40)) }
{
    if rows.reserve(1).is_err() {
        return Err(Cause::Memory);
    }
    let made = make_piece(desk, pieces, &left);
    let cause = cause_of(&made.answer);
    let row = Row {
        place: made.place,
        caller,
        call: Call::Piece(left),
        answer: made.answer,
    };
    rows.push(row).unwrap();
    match cause {
        None => Ok(()),
        Some(cause) => Err(cause),
    }
}

/// Asks for one piece of the span after another, each from where the one before it ended, and puts their rows behind those of
/// the lines before it.
pub(crate) fn run_scan<T: Turns<Branch<P::Seal>>, P: Port, G: Pager, L: MergeLaw>(
    desk: &mut Desk<'_, T, P, G, L>,
    rows: &mut Vec<Row>,
    caller: u32,
    span: &Span,
) -> Result<(), Cause>
    requires first { caller ≡ 0 }
    requires turns { (T.means desk.old.turns).turns < 2 ^ 41 }
    requires ready { T.ready desk.old.turns }
    requires nothing { MayCall (T.means desk.old.turns) }
    requires law { L.rule desk.old.law.now ≡ (T.means desk.old.turns).rule }
    requires lawful { L.ready desk.old.law.now }
    requires alone { (T.means desk.old.turns).alone ≡ true }
    requires actor { (T.means desk.old.turns).actor ≡ 0 }
    requires going { AreGoing (T.means desk.old.turns).rule P.Seal.TELLS rows.old.items }
    requires seen { T.saw desk.old.turns (counted rows.old.items) }
    ensures called { HasCalled (T.means desk.old.turns) (T.means desk.new.turns) }
    ensures few { MadeFew (T.means desk.old.turns) (T.means desk.new.turns) 1 }
    ensures ready { T.ready desk.new.turns }
    ensures law { desk.new.law.now ≡ desk.old.law.now }
    ensures device { desk.new.port.ghost_name ≡ desk.old.port.ghost_name }
    ensures pager { desk.new.pager.now ≡ desk.old.pager.now }
    ensures port { NeverFell (P.counts desk.old.port.now) (P.counts desk.new.port.now) }
    ensures runs { Went (branch_kind P.Seal.TELLS) (T.means desk.old.turns) (counted rows.old.items)
        (T.means desk.new.turns) (T.saw desk.new.turns) (Runs (T.means desk.old.turns).rule P.Seal.TELLS
        (P.counts desk.old.port.now) (P.counts desk.new.port.now) (T.means desk.new.turns).turns
        rows.old.items rows.new.items (deed.Scan span.now) result) }
{
    let mut pieces = Pieces::new(*span);
    while let Some(left) = *pieces.left() {
        run_piece(desk, rows, caller, &mut pieces, left)?;
    }
    Ok(())
}
