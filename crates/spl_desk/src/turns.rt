ghost use Rattle.std.specs.Prelude.{◌≡◌, ◌<◌, ◌^◌, true, IsSome, IfSome};
ghost use Rattle.spl_base.specs.declared.TheConstants.{ACTORS};
ghost use Rattle.spl_message.specs.History.{History};
ghost use Rattle.spl_state.specs.View.{branch_data};
ghost use Rattle.spl_core.specs.Standing.{Knows};
ghost use Rattle.spl_desk.specs.Holder.{Holder, IsSameHolder, kind_of};
ghost use Rattle.spl_desk.specs.Turn.{MadeTurn};

use spl_core::Step;
use spl_message::Content;
use spl_state::Reply;

/// A step that a holder of turns is to make, and then what it was answered.
#[derive(Drop)]
pub struct Exchange<B: Content> {
    pub step: Option<Step<B>>,
    pub reply: Option<Reply<B>>,
}

/// A holder of turns of a core: it makes one step at a time, as one actor, and knows the history of calls that it has
/// seen.
pub trait Turns<B: Content>: Drop {
    ghost means: { Self → Holder };

    // That the core's law may be called.
    ghost ready: { Self → Type 0 };

    // That this is the history of all calls, as far as the holder has seen it.
    ghost saw: { Self → History → Type 0 };

    /// The actor whose steps it makes.
    fn actor(&self) -> u32
        ensures value { result ≡ (means self.now).actor }
        ensures known { result < ACTORS };

    /// How many steps it made.
    fn turns(&self) -> u64
        ensures { result ≡ (means self.now).turns };

    /// Makes the step of the exchange, and puts its answer there. Call `take_turn`, which returns the answer: a method
    /// of a trait can't take a step and return an answer by value.
    fn step(&mut self, exchange: &mut Exchange<B>)
        requires turns { (means self.old).turns < 2 ^ 41 }
        requires ready { ready self.old }
        requires asked { IsSome exchange.old.step }

        // What the actor knows from its sight.
        requires knows { B.TELLS ≡ true → IfSome exchange.old.step
            (Knows B.table (means self.old).rule (means self.old).at (means self.old).actor) }
        ensures same { IsSameHolder (means self.old) (means self.new) 1 }
        ensures ready { ready self.new }
        ensures answered { IsSome exchange.new.reply }
        ensures turn { (history : History) → saw self.old history
            → IfSome exchange.old.step (λ step. IfSome exchange.new.reply (λ reply. MadeTurn
            (kind_of B.number (branch_data B.extents B.entries B.cuts B.table) B.TELLS)
            (means self.old) (means self.new) history step reply (saw self.new))) };
}

/// Makes one step, and returns its answer.
pub fn take_turn<B: Content, T: Turns<B>>(turns: &mut T, step: Step<B>) -> Reply<B>
    requires turns { (T.means turns.old).turns < 2 ^ 41 }
    requires ready { T.ready turns.old }
    requires knows { B.TELLS ≡ true → Knows B.table (T.means turns.old).rule (T.means turns.old).at (T.means turns.old).actor step }
    ensures same { IsSameHolder (T.means turns.old) (T.means turns.new) 1 }
    ensures ready { T.ready turns.new }
    ensures turn { (history : History) → T.saw turns.old history → MadeTurn
        (kind_of B.number (branch_data B.extents B.entries B.cuts B.table) B.TELLS)
        (T.means turns.old) (T.means turns.new) history step result (T.saw turns.new) }
{
    let mut exchange = Exchange {
        step: Some(step),
        reply: None,
    };
    turns.step(&mut exchange);
    exchange.reply.unwrap()
}
