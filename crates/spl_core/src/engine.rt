ghost use Rattle.spl_core.specs.Counting.{AreCounted};

use crate::leaves::leaf_count;
use crate::step::Step;
use spl_abandon::abandon;
use spl_base::{ACTORS, NoMemory};
use spl_compact::{install, start};
use spl_descent::{begin, end, move_down};
use spl_extent::EXTENTS;
use spl_flush::flush;
use spl_message::{Content, MergeLaw};
use spl_pack::{grant, incorporate, pick_frozen, publish};
use spl_split::{raise, split};
use spl_state::{Parts, Reply};
use spl_steps::{claim, lock, put, retire, rotate, unlock};
use spl_survey::survey;
use std::alloc::Global;

/// The state of a store with the law by which its updates are merged.
#[derive(Drop)]
pub struct Core<B: Content, L: MergeLaw> {
    parts: Parts<B>,
    law: L,
    alloc: Global,
    ghost counted: { AreCounted parts },
}

impl<B: Content, L: MergeLaw> Core<B, L> {
    ghost use Rattle.std.specs.Prelude.{◌≡◌, ◌≢◌, ℕ, ◌+◌, ◌<◌, ◌≤◌, ◌^◌, ◌++◌, List, [], true, IfOk};
    ghost use Rattle.spl_base.specs.declared.TheConstants.{ACTORS};
    ghost use Rattle.spl_extent.specs.declared.pool.TheConstants.{EXTENTS};
    ghost use Rattle.spl_message.specs.History.{History};
    ghost use Rattle.spl_message.specs.Rule.{Rule};
    ghost use Rattle.spl_state.specs.Frame.{refused};
    ghost use Rattle.spl_state.specs.Sight.{KeepsSight};
    ghost use Rattle.spl_state.specs.Sound.{AreDrafts, IsEmpty, IsSound};
    ghost use Rattle.spl_state.specs.View.{branch_data};
    ghost use Rattle.spl_core.specs.Leaves.{leaf_count};
    ghost use Rattle.spl_core.specs.Standing.{StandsFor, Knows, called};
    ghost use Rattle.spl_core.specs.Steps.{IsStep};

    /// A core in which no call was made: every extent is free, and nobody has anything.
    pub fn new(alloc: Global, extents: u32, callers: u32, law: L) -> Result<Core<B, L>, NoMemory>
        requires extents { extents ≤ EXTENTS }
        requires callers { callers ≤ ACTORS }
        ensures law { IfOk result (λ core. core.law ≡ law) }
        ensures empty { IfOk result (λ core. IsEmpty extents callers core.parts) }
        ensures stands { IfOk result (λ core. (rule : Rule) → StandsFor rule B.TELLS core.parts []) }
    {
        Ok(Core {
            parts: Parts::new(alloc, extents, callers)?,
            law,
            alloc,
        })
    }

    /// How many steps were made, refused ones too.
    pub fn steps(&self) -> u64
        ensures value { result ≡ self.now.parts.counters.steps }
        ensures sound { IsSound self.now.parts }
    {
        self.parts.counters.steps
    }

    /// How many leaves the trunk has.
    pub fn leaves(&self) -> u32
        ensures { result ≡ leaf_count self.now.parts.nodes }
    {
        leaf_count(&self.parts.trunk)
    }

    /// Makes the actor's step, and counts it, also where it is refused.
    pub fn step(&mut self, actor: u32, step: Step<B>) -> Reply<B>
        requires known { actor < ACTORS }
        requires steps { self.old.parts.counters.steps < 2 ^ 46 }
        requires ready { L.ready self.old.law }

        // What the actor knows from its sight.
        requires knows { B.TELLS ≡ true → Knows B.table (L.rule self.old.law) self.old.parts actor step }
        ensures law { self.new.law ≡ self.old.law }
        ensures counted { self.new.parts.counters.steps ≡ self.old.parts.counters.steps + 1 }
        ensures step { IsStep B.number (branch_data B.extents B.entries B.cuts B.table) (L.rule self.old.law) (refused self.old.parts) actor step result self.new.parts }
        ensures stands { (history : History) → StandsFor (L.rule self.old.law) B.TELLS self.old.parts history
            → StandsFor (L.rule self.old.law) B.TELLS self.new.parts (history ++ called actor step result) }
        ensures others { (B.TELLS ≡ true → AreDrafts (L.rule self.old.law) self.old.parts) → (other : ℕ) → other < ACTORS → other ≢ actor
            → KeepsSight (L.rule self.old.law) B.TELLS self.old.parts self.new.parts other }
    {
        self.parts.count();
        match step {
            Step::Put { key, message } => put(&mut self.parts, &self.law, &key, message),
            Step::Rotate => rotate(&mut self.parts, actor),
            Step::Begin { span } => begin(self.alloc, &mut self.parts, actor, &span),
            Step::MoveDown => move_down(self.alloc, &mut self.parts, actor),
            Step::End => end(&mut self.parts, actor),
            Step::Claim { node } => claim(&mut self.parts, actor, node),
            Step::Lock { node } => lock(&mut self.parts, actor, node),
            Step::Unlock { node } => unlock(&mut self.parts, actor, node),
            Step::PickFrozen => pick_frozen(&mut self.parts, actor),
            Step::Grant => grant(&mut self.parts, actor),
            Step::Publish { branch } => publish(&mut self.parts, actor, branch),
            Step::Incorporate => incorporate(&mut self.parts, actor),
            Step::Flush { parent, child } => flush(&mut self.parts, actor, parent, child),
            Step::Start { node, first, last } => {
                start(self.alloc, &mut self.parts, actor, node, first, last)
            }
            Step::Install { node, output } => install(&mut self.parts, actor, node, output),
            Step::Raise => raise(self.alloc, &mut self.parts, actor),
            Step::Split { parent, child, key } => {
                split(self.alloc, &mut self.parts, actor, parent, child, &key)
            }
            Step::Survey { node } => survey(self.alloc, &mut self.parts, actor, node),
            Step::Abandon => abandon(&mut self.parts, actor),
            Step::Retire => retire(&mut self.parts, actor),
        }
    }
}
