ghost use Rattle.std.specs.Prelude.{◌≡◌, ◌<◌, ◌≤◌, ◌↔◌, length, slice_get, slice_set, replicate, Some, IsTrue, IsNone, IfSome, IfNone, IfOk};
ghost use Rattle.spl_base.specs.declared.TheConstants.{ACTORS};
ghost use Rattle.spl_extent.specs.Pool.{free_count, granted_to, without_grants};
ghost use Rattle.spl_numbers.specs.Numbers.{size_of, ListsEach};

use crate::owner::Owner;
use spl_base::{ACTORS, NoMemory};
use spl_numbers::Numbers;
use std::alloc::Global;
use std::marker::Model;

/// How many extents a store has at most.
pub const EXTENTS: u32 = 65_536;

const _: () = prove!(EXTENTS == 65_536);

/// The owner of every extent. In a clause it is the list of the owners, by the extents'
/// numbers, so each extent is exactly one of free, granted to one actor, or held by one branch.
///
/// Only `new` takes memory, about 24 bytes an extent. `give_back_all` and `are_granted` take as
/// many steps as there are grants to give back or extents to test, and each other call the same
/// few steps however many extents there are.
#[derive(Debug, Drop)]
pub struct Pool {
    owners: Vec<Owner>,
    /// The numbers of the free extents, the next to be granted last.
    spare: Vec<u32>,
    /// The extents that each actor was granted.
    granted: Vec<Numbers>,
}

impl Model for Pool {
    ghost use Rattle.std.specs.Prelude.{List, vec_capacity};
    ghost use Rattle.spl_extent.specs.declared.owner.Owner.{Owner};
    ghost use Rattle.spl_extent.specs.Kept.{IsKept};

    ghost Value = { List Owner };

    ghost view = { λ p. p.owners.items };

    ghost invariant = { λ p. IsKept p.owners.items p.spare.items (vec_capacity p.spare) p.granted.items };
}

impl Pool {
    /// A pool of so many extents, with the numbers from 0 on.
    pub fn new(alloc: Global, count: u32) -> Result<Pool, NoMemory>
        requires { count ≤ EXTENTS }
        ensures { IfOk result (λ pool. pool ≡ replicate count Owner.Free) }
    {
        let owners = vec![in alloc; Owner::Free; count as usize]?;
        let mut spare = Vec::with_capacity(alloc, count as usize)?;
        for extent in (0..count).rev() {
            spare.push(extent)?;
        }
        let mut granted = Vec::with_capacity(alloc, ACTORS as usize)?;
        for _actor in 0..ACTORS {
            granted.push(Numbers::new(alloc, count)?)?;
        }
        Ok(Pool {
            owners,
            spare,
            granted,
        })
    }

    /// How many extents there are, free or not.
    pub fn extents(&self) -> u32
        ensures count { result ≡ length self.now }
        ensures limit { result ≤ EXTENTS }
    {
        self.owners.len() as u32
    }

    /// How many extents are free.
    pub fn free(&self) -> u32
        ensures { result ≡ free_count self.now }
    {
        self.spare.len() as u32
    }

    /// How many extents the actor was granted and has neither given back nor published.
    pub fn granted(&self, actor: u32) -> u32
        requires { actor < ACTORS }
        ensures { result ≡ size_of (granted_to self.now actor) }
    {
        self.granted[actor as usize].count()
    }

    /// Whether the list has each extent that the actor was granted once, and no other number.
    pub fn are_granted(&mut self, actor: u32, extents: &[u32]) -> bool
        requires { actor < ACTORS }
        ensures answer { IsTrue result ↔ ListsEach extents.now (granted_to self.old actor) }
        ensures unchanged { self.new ≡ self.old }
    {
        self.granted[actor as usize].is_listed_by(extents)
    }

    /// The extent's owner.
    pub fn owner(&self, extent: u32) -> Owner
        requires { extent < length self.now }
        ensures { slice_get self.now extent ≡ Some result }
    {
        self.owners[extent as usize]
    }

    /// Grants a free extent to the actor. Which one is unspecified.
    pub fn grant(&mut self, actor: u32) -> Option<u32>
        requires { actor < ACTORS }
        ensures spent { IsNone result ↔ (free_count self.old ≡ 0) }
        ensures was_free { IfSome result (λ extent. slice_get self.old extent ≡ Some Owner.Free) }
        ensures granted { IfSome result (λ extent. self.new ≡ slice_set self.old extent (Owner.Granted actor)) }
        ensures none { IfNone result (self.new ≡ self.old) }
    {
        let extent = self.spare.pop()?;
        self.owners[extent as usize] = Owner::Granted { actor };
        let granted = &mut self.granted[actor as usize];
        granted.insert(extent);
        Some(extent)
    }

    /// Takes back an extent that the actor was granted and did not publish.
    pub fn give_back(&mut self, actor: u32, extent: u32)
        requires known { actor < ACTORS }
        requires granted { slice_get self.old extent ≡ Some (Owner.Granted actor) }
        ensures { self.new ≡ slice_set self.old extent Owner.Free }
    {
        self.owners[extent as usize] = Owner::Free;
        let granted = &mut self.granted[actor as usize];
        granted.remove(extent);
        self.spare.push(extent).unwrap();
    }

    /// Takes back every extent that the actor was granted and did not publish.
    pub fn give_back_all(&mut self, actor: u32)
        requires { actor < ACTORS }
        ensures { self.new ≡ without_grants self.old actor }
    {
        while let Some(extent) = self.any_granted(actor) {
            self.give_back(actor, extent);
        }
    }

    fn any_granted(&self, actor: u32) -> Option<u32>
        requires { actor < ACTORS }
        ensures granted { IfSome result (λ extent. slice_get self.now extent ≡ Some (Owner.Granted actor)) }
        ensures none { IsNone result ↔ (size_of (granted_to self.now actor) ≡ 0) }
    {
        self.granted[actor as usize].any()
    }

    /// Transfers an extent from the actor to the branch.
    pub fn hold(&mut self, actor: u32, extent: u32, branch: u64)
        requires known { actor < ACTORS }
        requires granted { slice_get self.old extent ≡ Some (Owner.Granted actor) }
        ensures { self.new ≡ slice_set self.old extent (Owner.Held branch) }
    {
        self.owners[extent as usize] = Owner::Held { branch };
        let granted = &mut self.granted[actor as usize];
        granted.remove(extent);
    }

    /// Takes back an extent of a branch that has no references any more.
    pub fn release(&mut self, extent: u32, branch: u64)
        requires { slice_get self.old extent ≡ Some (Owner.Held branch) }
        ensures { self.new ≡ slice_set self.old extent Owner.Free }
    {
        self.owners[extent as usize] = Owner::Free;
        self.spare.push(extent).unwrap();
    }
}
