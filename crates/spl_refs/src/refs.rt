ghost use Rattle.std.specs.Prelude.{◌≡◌, ℕ, ◌+◌, ◌-◌, ◌<◌, ◌^◌, ◌↔◌, Some, None, IsSome, IfSome, OnOk, OnErr};
ghost use Rattle.std.specs.Option.{option_map};
ghost use Rattle.spl_refs.specs.Refs.{held_at, count_at, branch_at, one_more, one_less, last_of, SetsAt, CountsAt};

use crate::counted::Counted;
use spl_message::{Content, NoMemory};
use std::alloc::Global;
use std::collections::BTreeMap;
use std::marker::Model;
use std::sync::Arc;

/// The published branches by their numbers, each with its reference count: how often bundles, inputs of compactions and
/// drafts refer to it. In a clause it is read by `held_at`.
///
/// Each call takes steps in the logarithm of the number of branches, and only `publish` takes memory.
#[derive(Drop)]
pub struct Refs<B: Content> {
    branches: BTreeMap<u64, Counted<B>>,
}

impl<B: Content> Model for Refs<B> {
    ghost use Rattle.spl_refs.specs.Refs.{Published, as_published, AreCounted};

    ghost Value = { Published B };

    ghost view = { λ r. as_published r.branches.entries };

    ghost invariant = { λ r. AreCounted B.number (as_published r.branches.entries) };
}

impl<B: Content> Refs<B> {
    /// No branches.
    pub fn new(alloc: Global) -> Refs<B>
        ensures { (number : ℕ) → held_at result number ≡ None }
    {
        Refs {
            branches: BTreeMap::new(alloc),
        }
    }

    /// Adds the branch with a count of 1.
    #[tactic(auto, using(crate::proofs::Published::held_in))]
    pub fn publish(&mut self, branch: Arc<B>) -> Result<(), NoMemory>
        requires new_number { held_at self.old (B.number branch.value) ≡ None }
        ensures ok { OnOk result (SetsAt self.old self.new (B.number branch.value) (Some (1, branch.value))) }
        ensures counts { OnOk result (CountsAt self.old self.new (B.number branch.value) 1) }
        ensures err { OnErr result (self.new ≡ self.old) }
    {
        let number = branch.number();
        self.branches.insert(number, Counted { branch, count: 1 })?;
        Ok(())
    }

    /// Adds a reference to the branch.
    #[tactic(auto, using(crate::proofs::Published::held_in))]
    pub fn hold(&mut self, number: u64)
        requires there { IsSome (held_at self.old number) }
        requires limit { count_at self.old number < 2 ^ 63 }
        ensures cell { SetsAt self.old self.new number (one_more (held_at self.old number)) }
        ensures counts { CountsAt self.old self.new number (count_at self.old number + 1) }
        ensures branches { (other : ℕ) → branch_at self.new other ≡ branch_at self.old other }
    {
        let counted = self.branches.get_mut(&number).unwrap();
        counted.count += 1;
    }

    /// Drops a reference to the branch. Returns the branch if it was the last.
    #[tactic(auto, using(crate::proofs::Published::held_in))]
    pub fn let_go(&mut self, number: u64) -> Option<Arc<B>>
        requires { IsSome (held_at self.old number) }
        ensures last { option_map (λ branch. branch.value) result ≡ last_of (held_at self.old number) }
        ensures number { IfSome result (λ branch. B.number branch.value ≡ number) }
        ensures cell { SetsAt self.old self.new number (one_less (held_at self.old number)) }
        ensures counts { CountsAt self.old self.new number (count_at self.old number - 1) }
        ensures out { IsSome result ↔ (count_at self.old number ≡ 1) }
        ensures branches { (other : ℕ) → 0 < count_at self.new other → branch_at self.new other ≡ branch_at self.old other }
    {
        let counted = self.branches.get_mut(&number)?;
        if counted.count != 1 {
            counted.count -= 1;
            return None;
        }
        let counted = self.branches.remove(&number)?;
        Some(counted.branch)
    }

    /// The branch of the number, if there is one.
    #[tactic(auto, using(crate::proofs::Published::held_in))]
    pub fn find(&self, number: u64) -> Option<&Arc<B>>
        ensures value { option_map (λ branch. branch.now.value) result ≡ branch_at self.now number }
        ensures number { IfSome result (λ branch. B.number branch.now.value ≡ number) }
    {
        let counted = self.branches.get(&number)?;
        Some(&counted.branch)
    }

    /// The reference count of the branch, or 0 if there is none.
    #[tactic(auto, using(crate::proofs::Published::held_in))]
    pub fn count(&self, number: u64) -> u64
        ensures value { result ≡ count_at self.now number }
        ensures there { (0 < result) ↔ IsSome (held_at self.now number) }
    {
        match self.branches.get(&number) {
            Some(counted) => counted.count,
            None => 0,
        }
    }
}
