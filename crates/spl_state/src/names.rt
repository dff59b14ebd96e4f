//! How references to branches are dropped: a branch whose last reference is dropped frees its extents.
ghost use Rattle.std.specs.Prelude.{◌≡◌, ℕ, ◌<◌, ◌≤◌, List, ◌∷◌, ◌++◌};
ghost use Rattle.spl_extent.specs.Pool.{granted_to};
ghost use Rattle.spl_refs.specs.Refs.{count_at, branch_at};
ghost use Rattle.spl_state.specs.Names.{AreAccounted, IsFreed};
ghost use Rattle.spl_numbers.specs.Numbers.{ListsEach};
ghost use Rattle.spl_state.specs.Extents.{held_by};

use spl_extent::Pool;
use spl_message::Content;
use spl_refs::Refs;

/// Drops one reference to the branch, and frees its extents if that was the last.
pub fn let_go<B: Content>(refs: &mut Refs<B>, pool: &mut Pool, number: u64)
    requires accounted { (rest : List ℕ) × AreAccounted B.extents (number ∷ rest) refs.old pool.old }
    ensures accounted { (rest : List ℕ) → AreAccounted B.extents (number ∷ rest) refs.old pool.old
        → AreAccounted B.extents rest refs.new pool.new }
    ensures granted { (actor : ℕ) → granted_to pool.new actor ≡ granted_to pool.old actor }
    ensures branches { (other : ℕ) → 0 < count_at refs.new other → branch_at refs.new other ≡ branch_at refs.old other }
    ensures fewer { (other : ℕ) → count_at refs.new other ≤ count_at refs.old other }
{
    if let Some(branch) = refs.let_go(number) {
        release_all(pool, branch.extents(), number);
    }
}

/// Drops one reference to each of the branches.
pub fn let_go_all<B: Content>(refs: &mut Refs<B>, pool: &mut Pool, numbers: &[u64])
    requires accounted { (rest : List ℕ) × AreAccounted B.extents (numbers.now ++ rest) refs.old pool.old }
    ensures accounted { (rest : List ℕ) → AreAccounted B.extents (numbers.now ++ rest) refs.old pool.old
        → AreAccounted B.extents rest refs.new pool.new }
    ensures granted { (actor : ℕ) → granted_to pool.new actor ≡ granted_to pool.old actor }
    ensures branches { (other : ℕ) → 0 < count_at refs.new other → branch_at refs.new other ≡ branch_at refs.old other }
    ensures fewer { (other : ℕ) → count_at refs.new other ≤ count_at refs.old other }
{
    for number in numbers {
        let_go(refs, pool, *number);
    }
}

/// Frees the extents, which are all that the branch holds.
fn release_all(pool: &mut Pool, extents: &[u32], branch: u64)
    requires { ListsEach extents.now (held_by pool.old branch) }
    ensures { IsFreed pool.old pool.new branch }
{
    for extent in extents {
        pool.release(*extent, branch);
    }
}
