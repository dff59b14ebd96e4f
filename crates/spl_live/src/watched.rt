use crate::watch::Watch;
use spl_core::Step;
use spl_desk::{Exchange, Turns};
use spl_message::Content;

/// A holder of turns whose watch is told what its actor holds.
#[derive(Drop)]
pub struct Watched<'a, T> {
    turns: T,
    watch: &'a Watch,
}

impl<'a, T> Watched<'a, T> {
    ghost use Rattle.std.specs.Prelude.{◌≡◌};

    /// The same holder, with the watch.
    pub fn new(turns: T, watch: &'a Watch) -> Watched<'a, T>
        ensures { result.turns ≡ turns }
    {
        Watched { turns, watch }
    }
}

/// Whether the step ends what its actor holds, where it is done.
fn ends<B: Content>(step: &Option<Step<B>>) -> bool {
    matches!(step, Some(Step::End | Step::Abandon | Step::Install { .. }))
}

impl<'a, B: Content, T: Turns<B>> Turns<B> for Watched<'a, T> {
    ghost use Rattle.std.specs.Prelude.{◌≡◌, ◌<◌, ◌^◌, true, IsSome, IfSome};
    ghost use Rattle.spl_base.specs.declared.TheConstants.{ACTORS};
    ghost use Rattle.spl_message.specs.History.{History};
    ghost use Rattle.spl_state.specs.View.{branch_data};
    ghost use Rattle.spl_core.specs.Standing.{Knows};
    ghost use Rattle.spl_desk.specs.Holder.{IsSameHolder, kind_of};
    ghost use Rattle.spl_desk.specs.Turn.{MadeTurn};

    ghost means = { λ watched. T.means watched.turns };

    ghost ready = { λ watched. T.ready watched.turns };

    ghost saw = { λ watched. T.saw watched.turns };

    fn actor(&self) -> u32
        ensures value { result ≡ (T.means self.now.turns).actor }
        ensures known { result < ACTORS }
    {
        self.turns.actor()
    }

    fn turns(&self) -> u64
        ensures { result ≡ (T.means self.now.turns).turns }
    {
        self.turns.turns()
    }

    fn step(&mut self, exchange: &mut Exchange<B>)
        requires turns { (T.means self.old.turns).turns < 2 ^ 41 }
        requires ready { T.ready self.old.turns }
        requires asked { IsSome exchange.old.step }
        requires knows { B.TELLS ≡ true → IfSome exchange.old.step
            (Knows B.table (T.means self.old.turns).rule (T.means self.old.turns).at (T.means self.old.turns).actor) }
        ensures same { IsSameHolder (T.means self.old.turns) (T.means self.new.turns) 1 }
        ensures ready { T.ready self.new.turns }
        ensures answered { IsSome exchange.new.reply }
        ensures turn { (history : History) → T.saw self.old.turns history
            → IfSome exchange.old.step (λ step. IfSome exchange.new.reply (λ reply. MadeTurn
            (kind_of B.number (branch_data B.extents B.entries B.cuts B.table) B.TELLS)
            (T.means self.old.turns) (T.means self.new.turns) history step reply (T.saw self.new.turns))) }
    {
        let ends = ends(&exchange.step);
        self.turns.step(exchange);
        self.watch.answered(&exchange.reply, ends);
    }
}
