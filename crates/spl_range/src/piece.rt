//! One piece: a call that has a place of its own.
ghost use Rattle.std.specs.Prelude.{◌≡◌, ◌<◌, ◌≤◌, ◌^◌, IfOk, OnOk, IfErr, MatchOption};
ghost use Rattle.spl_message.specs.History.{History};
ghost use Rattle.spl_message.specs.declared.call.Call.TheVariants as call;
ghost use Rattle.spl_branch.specs.Reading.{OnlyReads};
ghost use Rattle.spl_desk.specs.Branches.{branch_kind};
ghost use Rattle.spl_desk.specs.Calls.{HasCalled, HasSeen, MadeCall, MadeFew, MadeNoCall, MayCall};
ghost use Rattle.spl_range.specs.Pieces.{IsPart, Pieced};
ghost use Rattle.spl_range.specs.Stopping.{HasPieceCause};

use crate::gather::pairs_at;
use crate::pieces::Piece;
use spl_branch::Branch;
use spl_desk::{Desk, Turns};
use spl_down::{Stopped, abandon, begin};
use spl_message::{MergeLaw, Span};
use spl_pager::Pager;
use spl_port::Port;

/// The keys of a first part of the span that have a value, at the place that the call has in the history of all calls.
pub(crate) fn piece<T: Turns<Branch<P::Seal>>, P: Port, G: Pager, L: MergeLaw>(
    desk: &mut Desk<'_, T, P, G, L>,
    span: &Span,
) -> Result<Piece, Stopped>
    requires turns { (T.means desk.old.turns).turns < 2 ^ 41 }
    requires ready { T.ready desk.old.turns }
    requires nothing { MayCall (T.means desk.old.turns) }
    requires seen { HasSeen (T.saw desk.old.turns) }
    requires law { L.rule desk.old.law.now ≡ (T.means desk.old.turns).rule }
    requires lawful { L.ready desk.old.law.now }
    ensures called { HasCalled (T.means desk.old.turns) (T.means desk.new.turns) }
    ensures few { MadeFew (T.means desk.old.turns) (T.means desk.new.turns) 1 }
    ensures ready { T.ready desk.new.turns }
    ensures seen { HasSeen (T.saw desk.new.turns) }
    ensures law { desk.new.law.now ≡ desk.old.law.now }
    ensures device { desk.new.port.ghost_name ≡ desk.old.port.ghost_name }
    ensures pager { desk.new.pager.now ≡ desk.old.pager.now }
    ensures turned { OnOk result (((T.means desk.old.turns).turns < (T.means desk.new.turns).turns)
        × ((T.means desk.new.turns).turns ≤ 2 ^ 40)) }
    ensures part { IfOk result (IsPart span.now) }
    ensures pieced { (history : History) → T.saw desk.old.turns history → IfOk result (Pieced (branch_kind P.Seal.TELLS)
        (T.means desk.old.turns) history (T.means desk.new.turns) (T.saw desk.new.turns) span.now) }

    // It has a place exactly where its descent had begun.
    ensures stopped { (history : History) → T.saw desk.old.turns history → IfErr result (λ stopped. MatchOption stopped.place
        (MadeNoCall (branch_kind P.Seal.TELLS) (T.means desk.old.turns) history (T.means desk.new.turns) (T.saw desk.new.turns))
        (λ place. MadeCall (branch_kind P.Seal.TELLS) (T.means desk.old.turns) history (T.means desk.new.turns)
        (T.saw desk.new.turns) (call.Piece span.now) place)) }
    ensures port { OnlyReads (P.counts desk.old.port.now) (P.counts desk.new.port.now) }
    ensures faults { OnOk result ((P.counts desk.new.port.now).faults ≡ (P.counts desk.old.port.now).faults) }
    ensures cause { IfErr result (λ stopped. HasPieceCause P.Seal.TELLS (P.counts desk.old.port.now)
        (P.counts desk.new.port.now) (T.means desk.new.turns) stopped.fault) }
{
    let sight = match begin(&mut desk.turns, span) {
        Ok(sight) => sight,
        Err(fault) => {
            abandon(&mut desk.turns);
            return Err(Stopped { fault, place: None });
        }
    };
    let place = sight.place;
    match pairs_at(desk, span, sight) {
        Ok((span, pairs)) => Ok(Piece { span, place, pairs }),
        Err(fault) => {
            abandon(&mut desk.turns);
            Err(Stopped {
                fault,
                place: Some(place),
            })
        }
    }
}
