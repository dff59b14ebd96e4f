//! The branches of a run: their numbers, the branches themselves, and the job's references to them.
ghost use Rattle.std.specs.Prelude.{◌≡◌, ℕ, ◌+◌, ◌<◌, ◌≤◌, ◌^◌, ◌++◌, length, map, All, IsSome, IfOk};
ghost use Rattle.spl_bundle.specs.Numbered.{next_of};
ghost use Rattle.spl_node.specs.Parts.{branches_from};
ghost use Rattle.spl_refs.specs.Refs.{branch_at, count_at};
ghost use Rattle.spl_trunk.specs.Tree.{times};
ghost use Rattle.spl_descent.specs.Sights.{HasBranches};

use spl_base::NoMemory;
use spl_bundle::Bundles;
use spl_message::Content;
use spl_refs::Refs;
use spl_state::Branches;
use std::alloc::Global;
use std::sync::Arc;

/// The numbers of the branches of the bundles from `first` on and below `end`, oldest first.
pub(crate) fn numbers_of(
    alloc: Global,
    lists: &Bundles,
    first: u64,
    end: u64,
) -> Result<Vec<u64>, NoMemory>
    requires stands { lists.now.first ≤ first }
    requires made { end ≤ next_of lists.now }
    ensures { IfOk result (λ numbers. numbers.items ≡ branches_from lists.now first end) }
{
    let mut numbers = Vec::new(alloc);
    for number in first..end {
        numbers.extend_from_slice(lists.list(number))?;
    }
    Ok(numbers)
}

/// The branches of these numbers, shared.
pub(crate) fn share<B: Content>(
    alloc: Global,
    refs: &Refs<B>,
    numbers: &[u64],
) -> Result<Branches<B>, NoMemory>
    requires { All (λ number. IsSome (branch_at refs.now number)) numbers.now }
    ensures { IfOk result (HasBranches B.number (branch_at refs.now) numbers.now) }
{
    let mut shared = Vec::with_capacity(alloc, numbers.len())?;
    for number in numbers {
        let branch = refs.find(*number).unwrap();
        shared.push(branch.clone()?)?;
    }
    Ok(Branches::of(shared))
}

/// Adds a reference to each of the branches.
pub(crate) fn hold_all<B: Content>(refs: &mut Refs<B>, numbers: &[u64])
    requires there { All (λ number. IsSome (branch_at refs.old number)) numbers.now }
    requires limit { (number : ℕ) → count_at refs.old number + length numbers.now < 2 ^ 63 }
    ensures counts { (number : ℕ)
        → count_at refs.new number ≡ count_at refs.old number + times number numbers.now }
    ensures branches { (number : ℕ) → branch_at refs.new number ≡ branch_at refs.old number }
{
    for number in numbers {
        refs.hold(*number);
    }
}
