ghost use Rattle.std.specs.Prelude.{◌≡◌, ℕ, ◌<◌, ◌+◌, max, length, replicate, slice_set, None, Some, false, true, IfOk};
ghost use Rattle.spl_base.specs.declared.TheConstants.{ACTORS};
ghost use Rattle.spl_state.specs.Actor.{idle, actor_in, with_descent, with_job, with_draft, told_of, cleared};

use crate::descent::Descent;
use crate::job::Job;
use spl_base::{ACTORS, NoMemory};
use std::alloc::Global;
use std::marker::Model;

/// The state of an actor: its descent, its job, and of which nodes it was told.
#[derive(Debug, Drop)]
pub struct Actor {
    /// Its descent. It has no job meanwhile.
    pub descent: Option<Descent>,
    /// Its job.
    pub job: Option<Job>,
    /// Whether it published the branch of its job.
    pub published: bool,
    /// One more than the greatest node number that an answer told it, and at least 1.
    pub told: u32,
}

/// All actors by their numbers. In a clause it is the list of them.
#[derive(Debug, Drop)]
pub struct Actors {
    actors: Vec<Actor>,
}

impl Model for Actors {
    ghost use Rattle.std.specs.Prelude.{◌≡◌, List, length};
    ghost use Rattle.spl_base.specs.declared.TheConstants.{ACTORS};
    ghost use Rattle.spl_state.specs.declared.actor.Actor.{Actor};

    ghost Value = { List Actor };

    ghost view = { λ a. a.actors.items };

    ghost invariant = { λ a. length a.actors.items ≡ ACTORS };
}

impl Actors {
    /// Actors with nothing, that were told of the root alone.
    pub fn new(alloc: Global) -> Result<Actors, NoMemory>
        ensures { IfOk result (λ actors. actors ≡ replicate ACTORS idle) }
    {
        let mut actors = Vec::with_capacity(alloc, ACTORS as usize)?;
        for _actor in 0..ACTORS {
            actors.push(Actor {
                descent: None,
                job: None,
                published: false,
                told: 1,
            })?;
        }
        Ok(Actors { actors })
    }

    /// The actor with this number.
    pub fn at(&self, actor: u32) -> &Actor
        requires { actor < ACTORS }
        ensures value { result.now ≡ actor_in self.now actor }
        ensures count { length self.now ≡ ACTORS }
    {
        &self.actors[actor as usize]
    }

    /// Gives the actor a descent, or none.
    pub fn set_descent(&mut self, actor: u32, descent: Option<Descent>)
        requires { actor < ACTORS }
        ensures { self.new ≡ slice_set self.old actor (with_descent (actor_in self.old actor) descent) }
    {
        self.actors[actor as usize].descent = descent;
    }

    /// Gives the actor a job, or none, of which nothing is published.
    pub fn set_job(&mut self, actor: u32, job: Option<Job>)
        requires { actor < ACTORS }
        ensures { self.new ≡ slice_set self.old actor (with_job (actor_in self.old actor) job) }
    {
        let actor = &mut self.actors[actor as usize];
        actor.job = job;
        actor.published = false;
    }

    /// Notes that the actor published the branch of its job.
    pub fn publish(&mut self, actor: u32)
        requires { actor < ACTORS }
        ensures { self.new ≡ slice_set self.old actor (with_draft (actor_in self.old actor)) }
    {
        self.actors[actor as usize].published = true;
    }

    /// Notes that an answer names the node to the actor.
    pub fn tell(&mut self, actor: u32, node: u32)
        requires known { actor < ACTORS }
        requires number { node < 4096 }
        ensures { self.new ≡ slice_set self.old actor (told_of (actor_in self.old actor) node) }
    {
        let actor = &mut self.actors[actor as usize];
        actor.told = actor.told.max(node + 1);
    }

    /// Leaves the actor without a descent, a job and a published branch.
    pub fn clear(&mut self, actor: u32)
        requires { actor < ACTORS }
        ensures { self.new ≡ slice_set self.old actor (cleared (actor_in self.old actor)) }
    {
        let actor = &mut self.actors[actor as usize];
        actor.descent = None;
        actor.job = None;
        actor.published = false;
    }
}
