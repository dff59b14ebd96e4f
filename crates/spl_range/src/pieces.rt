ghost use Rattle.std.specs.Prelude.{◌≡◌, ◌≢◌, ◌<◌, ◌≤◌, ◌^◌, None, Some, Ok, IfOk, IfErr, IfSome, IsSome, MatchOption, OnErr, OnOk};
ghost use Rattle.spl_message.specs.Answer.{EndsIn};
ghost use Rattle.spl_message.specs.History.{History};
ghost use Rattle.spl_message.specs.declared.call.Call.TheVariants as call;
ghost use Rattle.spl_branch.specs.Reading.{OnlyReads};
ghost use Rattle.spl_desk.specs.Branches.{branch_kind};
ghost use Rattle.spl_desk.specs.Calls.{HasCalled, HasSeen, MadeCall, MadeFew, MadeNoCall, MayCall};
ghost use Rattle.spl_range.specs.Pieces.{IsLeft, IsPart, Pieced};
ghost use Rattle.spl_range.specs.Stopping.{HasPieceCause};

use crate::piece::piece;
use spl_branch::Branch;
use spl_desk::{Desk, Turns};
use spl_down::Stopped;
use spl_message::{Bound, MergeLaw, Pairs, Span};
use spl_pager::Pager;
use spl_port::Port;
use std::marker::Model;

/// A part of a scan: the keys of its span that have a value at its place, in order.
#[derive(Debug, Drop)]
pub struct Piece {
    pub span: Span,
    /// The place of the piece's call.
    pub place: u64,
    pub pairs: Pairs,
}

/// A scan of a span, in pieces. A clause sees what is left of the span: `None` after the last piece and after an error.
#[derive(Debug, Drop)]
pub struct Pieces {
    left: Option<Span>,
}

impl Model for Pieces {
    ghost use Rattle.std.specs.Prelude.{Option};
    ghost use Rattle.spl_message.specs.declared.span.Span.{Span as Shown};

    ghost Value = { Option Shown };

    ghost view = { λ p. p.left };
}

impl Pieces {
    /// A scan of the span.
    pub fn new(span: Span) -> Pieces
        ensures { result ≡ Some span }
    {
        Pieces { left: Some(span) }
    }

    /// What is left of the span.
    pub fn left(&self) -> &Option<Span>
        ensures { result.now ≡ self.now }
    {
        &self.left
    }

    /// The next piece, which starts where the one before ended; `None` after the last one and after an error.
    pub fn next<T: Turns<Branch<P::Seal>>, P: Port, G: Pager, L: MergeLaw>(
        &mut self,
        desk: &mut Desk<'_, T, P, G, L>,
    ) -> Result<Option<Piece>, Stopped>
        requires turns { (T.means desk.old.turns).turns < 2 ^ 41 }
        requires ready { T.ready desk.old.turns }
        requires nothing { MayCall (T.means desk.old.turns) }
        requires seen { HasSeen (T.saw desk.old.turns) }
        requires law { L.rule desk.old.law.now ≡ (T.means desk.old.turns).rule }
        requires lawful { L.ready desk.old.law.now }
        ensures called { HasCalled (T.means desk.old.turns) (T.means desk.new.turns) }
        ensures few { MadeFew (T.means desk.old.turns) (T.means desk.new.turns) 1 }
        ensures ready { T.ready desk.new.turns }
        ensures seen { HasSeen (T.saw desk.new.turns) }
        ensures law { desk.new.law.now ≡ desk.old.law.now }
        ensures device { desk.new.port.ghost_name ≡ desk.old.port.ghost_name }
        ensures pager { desk.new.pager.now ≡ desk.old.pager.now }

        // Each piece takes a turn, of which a desk has 2^40.
        ensures turned { IfOk result (λ next. IfSome next (λ piece. ((T.means desk.old.turns).turns < (T.means desk.new.turns).turns)
            × ((T.means desk.new.turns).turns ≤ 2 ^ 40))) }

        // There is none exactly where nothing is left, and then nothing is asked.
        ensures none { self.old ≡ None → (result ≡ Ok None) × (self.new ≡ None)
            × (desk.new.turns ≡ desk.old.turns) × (P.counts desk.new.port.now ≡ P.counts desk.old.port.now) }
        ensures some { IfSome self.old (λ span. IfOk result (λ next. IsSome next)) }

        // The piece is the first part of what is left, and what is left then starts where it ends.
        ensures part { IfSome self.old (λ span. IfOk result (λ next. IfSome next (λ piece.
            IsPart span piece × IsLeft span piece.span.to self.new))) }
        ensures pieced { (history : History) → T.saw desk.old.turns history → IfSome self.old (λ span. IfOk result (λ next.
            IfSome next (Pieced (branch_kind P.Seal.TELLS) (T.means desk.old.turns) history (T.means desk.new.turns)
            (T.saw desk.new.turns) span))) }

        // A call that is stopped has a place exactly where its descent had begun, and ends the scan.
        ensures ended { OnErr result (self.new ≡ None) }
        ensures stopped { (history : History) → T.saw desk.old.turns history → IfSome self.old (λ span. IfErr result (λ stopped.
            MatchOption stopped.place
            (MadeNoCall (branch_kind P.Seal.TELLS) (T.means desk.old.turns) history (T.means desk.new.turns) (T.saw desk.new.turns))
            (λ place. MadeCall (branch_kind P.Seal.TELLS) (T.means desk.old.turns) history (T.means desk.new.turns)
            (T.saw desk.new.turns) (call.Piece span) place))) }
        ensures port { OnlyReads (P.counts desk.old.port.now) (P.counts desk.new.port.now) }
        ensures faults { OnOk result ((P.counts desk.new.port.now).faults ≡ (P.counts desk.old.port.now).faults) }
        ensures cause { IfErr result (λ stopped. HasPieceCause P.Seal.TELLS (P.counts desk.old.port.now)
            (P.counts desk.new.port.now) (T.means desk.new.turns) stopped.fault) }
    {
        let Some(span) = self.left.take() else {
            return Ok(None);
        };
        let next = piece(desk, &span)?;
        self.left = left_behind(&span, &next.span.to);
        Ok(Some(next))
    }
}

/// What is left of the span behind a piece that ends here.
fn left_behind(span: &Span, end: &Option<Bound>) -> Option<Span>
    requires { EndsIn span.now end.now }
    ensures { IsLeft span.now end.now result }
{
    if *end == span.to {
        return None;
    }
    match end {
        Some(end) => Some(Span {
            from: end.key(),
            to: span.to,
        }),
        None => None,
    }
}
