ghost use Rattle.std.specs.Prelude.{◌≡◌, ◌≢◌, ◌<◌, ◌≤◌, [], ◌∷◌, ◌++◌, ℕ, length, IsNone, IfOk, IfSome, OnOk, OnErr, All};
ghost use Rattle.spl_base.specs.declared.TheConstants.{ACTORS};
ghost use Rattle.spl_holds.specs.Latch.{IsLatched, nobody, writer_of, claimant_of, first_reader_of, refused_by};
ghost use Rattle.spl_holds.specs.Holds.{grips_at, grip_of, with_grip, without_actor};
ghost use Rattle.spl_holds.specs.Counts.{counts_of};

use crate::counts::Counts;
use crate::grip::Grip;
use crate::held::Held;
use crate::latch::Latch;
use crate::tally::Tally;
use spl_base::{ACTORS, NoMemory};
use std::alloc::Global;
use std::marker::Model;

/// How many nodes the trunk has at most.
pub const NODES: u32 = 4096;

const _: () = prove!(NODES == 4096);

/// The grips on the trunk's nodes. In a clause it is a list with the grips on each node, by the
/// nodes' numbers, and these are the list of what each actor has there, by the actors' numbers.
///
/// Only `new` takes memory, about 72 KiB. `leave_all` takes as many steps as the actor has grips,
/// and each other call the same few however many nodes and actors there are.
#[derive(Debug, Drop)]
pub struct Holds {
    latches: Vec<Latch>,
    /// What each actor has, by the actors' numbers.
    tallies: Vec<Tally>,
}

impl Model for Holds {
    ghost use Rattle.std.specs.Prelude.{List, vec_capacity};
    ghost use Rattle.spl_holds.specs.declared.grip.Grip.{Grip};
    ghost use Rattle.spl_holds.specs.Room.{IsKept};

    ghost Value = { List (List Grip) };

    ghost view = { λ h. h.latches.items };

    ghost invariant = { λ h. IsKept h.latches.items (vec_capacity h.latches) h.tallies.items };
}

impl Holds {
    /// The grips of a trunk with node 0 alone, which nobody holds.
    pub fn new(alloc: Global) -> Result<Holds, NoMemory>
        ensures root { IfOk result (λ holds. holds ≡ nobody ∷ []) }
        ensures latched { IfOk result (λ holds. All IsLatched holds) }
    {
        let mut latches = Vec::with_capacity(alloc, NODES as usize)?;
        latches.push(Latch::new())?;
        let mut tallies = Vec::with_capacity(alloc, ACTORS as usize)?;
        for _actor in 0..ACTORS {
            tallies.push(Tally::new(alloc)?)?;
        }
        Ok(Holds { latches, tallies })
    }

    /// How many nodes there are. Their numbers are those below it.
    pub fn nodes(&self) -> u32
        ensures count { result ≡ length self.now }
        ensures root { 0 < result }
        ensures limit { result ≤ NODES }
        ensures latched { All IsLatched self.now }
    {
        self.latches.len() as u32
    }

    /// Adds a node that nobody holds, and gives its number.
    pub fn add(&mut self) -> u32
        requires { length self.old < NODES }
        ensures number { result ≡ length self.old }
        ensures added { self.new ≡ self.old ++ nobody ∷ [] }
        ensures latched { All IsLatched self.new }
    {
        let node = self.latches.len() as u32;
        self.latches.push(Latch::new()).unwrap();
        node
    }

    /// What the actor has on the node.
    pub fn grip(&self, actor: u32, node: u32) -> Grip
        requires known { actor < ACTORS }
        requires exists { node < length self.now }
        ensures grip { result ≡ grip_of self.now actor node }
        ensures latched { All IsLatched self.now }
    {
        self.latches[node as usize].grip(actor)
    }

    /// How many reads, claims and writes the actor has.
    pub fn counts(&self, actor: u32) -> Counts
        requires { actor < ACTORS }
        ensures { result ≡ counts_of self.now actor }
    {
        self.tallies[actor as usize].counts
    }

    /// The actor for which a read of the node would be refused, if there is one.
    pub fn writer(&self, node: u32) -> Option<u32>
        requires { node < length self.now }
        ensures { result ≡ writer_of (grips_at self.now node) }
    {
        self.latches[node as usize].writer()
    }

    /// The actor for which a claim of the node would be refused, if there is one.
    pub fn claimant(&self, node: u32) -> Option<u32>
        requires { node < length self.now }
        ensures { result ≡ claimant_of (grips_at self.now node) }
    {
        self.latches[node as usize].claimant()
    }

    /// The actor for which the claimant's lock of the node would be refused, if there is one.
    pub fn first_reader(&self, node: u32) -> Option<u32>
        requires { node < length self.now }
        ensures { result ≡ first_reader_of (grips_at self.now node) }
    {
        self.latches[node as usize].first_reader()
    }

    /// Lets the actor read the node, unless another actor writes it.
    pub fn read(&mut self, actor: u32, node: u32) -> Result<(), Held>
        requires known { actor < ACTORS }
        requires exists { node < length self.old }
        requires free { grip_of self.old actor node ≡ Grip.Free }
        ensures answer { result ≡ refused_by (writer_of (grips_at self.old node)) }
        ensures ok { OnOk result (self.new ≡ with_grip self.old actor node Grip.Read) }
        ensures err { OnErr result (self.new ≡ self.old) }
        ensures latched { All IsLatched self.new }
    {
        let latch = &mut self.latches[node as usize];
        latch.read(actor)?;
        let tally = &mut self.tallies[actor as usize];
        tally.add(node, Grip::Read);
        Ok(())
    }

    /// Lets the actor claim the node, unless another actor has claimed it or writes it.
    pub fn claim(&mut self, actor: u32, node: u32) -> Result<(), Held>
        requires known { actor < ACTORS }
        requires exists { node < length self.old }
        requires free { grip_of self.old actor node ≡ Grip.Free }
        ensures answer { result ≡ refused_by (claimant_of (grips_at self.old node)) }
        ensures ok { OnOk result (self.new ≡ with_grip self.old actor node Grip.Claim) }
        ensures err { OnErr result (self.new ≡ self.old) }
        ensures latched { All IsLatched self.new }
    {
        let latch = &mut self.latches[node as usize];
        latch.claim(actor)?;
        let tally = &mut self.tallies[actor as usize];
        tally.add(node, Grip::Claim);
        Ok(())
    }

    /// Makes the actor's claim a write, unless another actor reads the node. The lowest-numbered
    /// reader is named.
    pub fn lock(&mut self, actor: u32, node: u32) -> Result<(), Held>
        requires known { actor < ACTORS }
        requires exists { node < length self.old }
        requires claimed { grip_of self.old actor node ≡ Grip.Claim }
        ensures answer { result ≡ refused_by (first_reader_of (grips_at self.old node)) }
        ensures ok { OnOk result (self.new ≡ with_grip self.old actor node Grip.Write) }
        ensures err { OnErr result (self.new ≡ self.old) }
        ensures latched { All IsLatched self.new }
    {
        let latch = &mut self.latches[node as usize];
        latch.lock(actor)?;
        let tally = &mut self.tallies[actor as usize];
        tally.lock();
        Ok(())
    }

    /// Ends the actor's grip on the node, if it has one.
    pub fn leave(&mut self, actor: u32, node: u32)
        requires known { actor < ACTORS }
        requires exists { node < length self.old }
        ensures left { self.new ≡ with_grip self.old actor node Grip.Free }
        ensures latched { All IsLatched self.new }
    {
        let latch = &mut self.latches[node as usize];
        let grip = latch.grip(actor);
        if grip == Grip::Free {
            return;
        }
        latch.leave(actor);
        let tally = &mut self.tallies[actor as usize];
        tally.drop(node, grip);
    }

    /// Ends all grips of the actor.
    pub fn leave_all(&mut self, actor: u32)
        requires { actor < ACTORS }
        ensures left { self.new ≡ without_actor self.old actor }
        ensures latched { All IsLatched self.new }
    {
        while let Some(node) = self.any_node(actor) {
            self.leave(actor, node);
        }
    }

    /// A node on which the actor has a grip.
    fn any_node(&self, actor: u32) -> Option<u32>
        requires { actor < ACTORS }
        ensures exists { IfSome result (λ node. node < length self.now) }
        ensures held { IfSome result (λ node. grip_of self.now actor node ≢ Grip.Free) }
        ensures none { IsNone result → (node : ℕ) → grip_of self.now actor node ≡ Grip.Free }
        ensures latched { All IsLatched self.now }
    {
        self.tallies[actor as usize].nodes.any()
    }
}
