ghost use Rattle.std.specs.Prelude.{◌≡◌, ◌<◌, ◌^◌, true};
ghost use Rattle.spl_message.specs.History.{History};
ghost use Rattle.spl_state.specs.View.{branch_data};
ghost use Rattle.spl_core.specs.Standing.{StandsFor, Knows};
ghost use Rattle.spl_desk.specs.Holder.{IsSameHolder, kind_of};
ghost use Rattle.spl_desk.specs.Turn.{MadeTurn};
ghost use Rattle.spl_alone.specs.Alone.{only_holder};

use spl_base::ACTORS;
use spl_core::{Core, Step};
use spl_desk::{Exchange, Turns};
use spl_message::{Content, MergeLaw};
use spl_state::Reply;

/// A core with one actor, of number 0.
#[derive(Drop)]
pub struct Alone<B: Content, L: MergeLaw> {
    core: Core<B, L>,
}

impl<B: Content, L: MergeLaw> Alone<B, L> {
    /// The only holder of this core.
    pub fn new(core: Core<B, L>) -> Alone<B, L>
        ensures { result.core ≡ core }
    {
        Alone { core }
    }

    /// Returns the core.
    pub fn core(self) -> Core<B, L>
        ensures { result ≡ self.core }
    {
        self.core
    }

    /// Makes one step of the core as its only actor.
    fn make(&mut self, step: Step<B>) -> Reply<B>
        requires turns { self.old.core.parts.counters.steps < 2 ^ 41 }
        requires ready { L.ready self.old.core.law }
        requires knows { B.TELLS ≡ true → Knows B.table (L.rule self.old.core.law) self.old.core.parts 0 step }
        ensures same { IsSameHolder (only_holder (L.rule self.old.core.law) self.old.core.parts)
            (only_holder (L.rule self.new.core.law) self.new.core.parts) 1 }
        ensures ready { L.ready self.new.core.law }
        ensures turn { (history : History) → StandsFor (L.rule self.old.core.law) B.TELLS self.old.core.parts history
            → MadeTurn (kind_of B.number (branch_data B.extents B.entries B.cuts B.table) B.TELLS)
            (only_holder (L.rule self.old.core.law) self.old.core.parts)
            (only_holder (L.rule self.new.core.law) self.new.core.parts) history step result
            (StandsFor (L.rule self.new.core.law) B.TELLS self.new.core.parts) }
    {
        // The two calls of `steps` tell that the core is sound.
        let _ = self.core.steps();
        let reply = self.core.step(0, step);
        let _ = self.core.steps();
        reply
    }
}

impl<B: Content, L: MergeLaw> Turns<B> for Alone<B, L> {
    ghost use Rattle.std.specs.Prelude.{◌≡◌, ◌<◌, ◌^◌, true, IsSome, IfSome};
    ghost use Rattle.spl_message.specs.History.{History};
    ghost use Rattle.spl_state.specs.View.{branch_data};
    ghost use Rattle.spl_core.specs.Standing.{StandsFor, Knows};
    ghost use Rattle.spl_desk.specs.Holder.{IsSameHolder, kind_of};
    ghost use Rattle.spl_desk.specs.Turn.{MadeTurn};
    ghost use Rattle.spl_alone.specs.Alone.{only_holder};

    ghost means = { λ alone. only_holder (L.rule alone.core.law) alone.core.parts };

    ghost ready = { λ alone. L.ready alone.core.law };

    ghost saw = { λ alone history. StandsFor (L.rule alone.core.law) B.TELLS alone.core.parts history };

    fn actor(&self) -> u32 {
        0
    }

    fn turns(&self) -> u64 {
        self.core.steps()
    }

    fn step(&mut self, exchange: &mut Exchange<B>)
        requires turns { self.old.core.parts.counters.steps < 2 ^ 41 }
        requires ready { L.ready self.old.core.law }
        requires asked { IsSome exchange.old.step }
        requires knows { B.TELLS ≡ true → IfSome exchange.old.step (Knows B.table (L.rule self.old.core.law) self.old.core.parts 0) }
        ensures same { IsSameHolder (only_holder (L.rule self.old.core.law) self.old.core.parts)
            (only_holder (L.rule self.new.core.law) self.new.core.parts) 1 }
        ensures ready { L.ready self.new.core.law }
        ensures answered { IsSome exchange.new.reply }
        ensures turn { (history : History) → StandsFor (L.rule self.old.core.law) B.TELLS self.old.core.parts history
            → IfSome exchange.old.step (λ step. IfSome exchange.new.reply (λ reply. MadeTurn
            (kind_of B.number (branch_data B.extents B.entries B.cuts B.table) B.TELLS)
            (only_holder (L.rule self.old.core.law) self.old.core.parts)
            (only_holder (L.rule self.new.core.law) self.new.core.parts) history step reply
            (StandsFor (L.rule self.new.core.law) B.TELLS self.new.core.parts))) }
    {
        let step = exchange.step.take().unwrap();
        exchange.reply = Some(self.make(step));
    }
}
