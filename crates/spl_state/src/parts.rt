ghost use Rattle.std.specs.Prelude.{◌≡◌, ℕ, ◌≤◌, ◌<◌, ◌^◌, IfOk};
ghost use Rattle.spl_base.specs.declared.TheConstants.{ACTORS};
ghost use Rattle.spl_extent.specs.declared.pool.TheConstants.{EXTENTS};
ghost use Rattle.spl_state.specs.Bounds.{AreBelow};
ghost use Rattle.spl_state.specs.Frame.{refused};
ghost use Rattle.spl_state.specs.Reply.{state_of};
ghost use Rattle.spl_state.specs.Sound.{IsSound, IsEmpty};

use crate::actor::Actors;
use crate::counters::Counters;
use crate::reply::ActorState;
use spl_base::{ACTORS, NoMemory};
use spl_extent::{EXTENTS, Pool};
use spl_holds::Holds;
use spl_message::Content;
use spl_refs::Refs;
use spl_tables::Memtables;
use spl_trunk::Trunk;
use std::alloc::Global;
use std::marker::Model;

/// The parts of a store that its steps change. In a clause they are one piece of plain data, and always sound.
#[derive(Drop)]
pub struct Parts<B: Content> {
    /// The nodes, and the bundles of branches in them.
    pub trunk: Trunk,
    /// The published branches with their reference counts.
    pub refs: Refs<B>,
    /// Who has which grip on which node.
    pub holds: Holds,
    /// The owner of every extent.
    pub pool: Pool,
    /// The latest messages.
    pub tables: Memtables,
    /// The state of every actor.
    pub actors: Actors,
    pub counters: Counters,
}

impl<B: Content> Model for Parts<B> {
    ghost use Rattle.spl_state.specs.Whole.{Whole};
    ghost use Rattle.spl_state.specs.View.{branch_data, whole_of};
    ghost use Rattle.spl_state.specs.Sound.{IsSound};

    ghost Value = { Whole };

    ghost view = { λ p. whole_of (branch_data B.extents B.entries B.cuts B.table) p };

    ghost invariant = { λ p. IsSound (whole_of (branch_data B.extents B.entries B.cuts B.table) p) };
}

impl<B: Content> Parts<B> {
    /// The state of a store in which no call was made: every extent is free, and nobody has anything.
    pub fn new(alloc: Global, extents: u32, callers: u32) -> Result<Parts<B>, NoMemory>
        requires extents { extents ≤ EXTENTS }
        requires callers { callers ≤ ACTORS }
        ensures { IfOk result (IsEmpty extents callers) }
    {
        Ok(Parts {
            trunk: Trunk::new(alloc)?,
            refs: Refs::new(alloc),
            holds: Holds::new(alloc)?,
            pool: Pool::new(alloc, extents)?,
            tables: Memtables::new(alloc)?,
            actors: Actors::new(alloc)?,
            counters: Counters {
                steps: 0,
                places: 0,
                branches: 0,
                running: callers,
            },
        })
    }

    /// Counts one more step.
    pub fn count(&mut self)
        requires { self.old.counters.steps < 2 ^ 46 }
        ensures counted { self.new ≡ refused self.old }
        ensures fresh { AreBelow self.new.nodes self.new.tables self.new.counters }
    {
        self.counters.steps += 1;
    }

    /// What the actor has.
    pub fn state(&self, actor: u32) -> ActorState
        requires { actor < ACTORS }
        ensures value { result ≡ state_of self.now actor }
        ensures sound { IsSound self.now }
    {
        let has = self.actors.at(actor);
        let grips = self.holds.counts(actor);
        ActorState {
            descent: has.descent.is_some(),
            job: has.job.is_some(),
            granted: self.pool.granted(actor),
            published: has.published,
            reads: grips.reads,
            claims: grips.claims,
            writes: grips.writes,
        }
    }
}
