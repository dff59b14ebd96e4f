//! References of bundles to branches: those of a new bundle are added, and those of dropped bundles dropped.
ghost use Rattle.std.specs.Prelude.{◌≡◌, ℕ, ◌+◌, ◌<◌, ◌≤◌, ◌^◌, List, ◌++◌, IsSome, length};
ghost use Rattle.spl_bundle.specs.declared.bundles.TheConstants.{MAX_BRANCHES};
ghost use Rattle.spl_bundle.specs.Numbered.{next_of};
ghost use Rattle.spl_extent.specs.Pool.{granted_to};
ghost use Rattle.spl_refs.specs.Refs.{held_at, count_at, branch_at};
ghost use Rattle.spl_state.specs.Names.{AreAccounted};
ghost use Rattle.spl_trunk.specs.Tree.{times};
ghost use Rattle.spl_flush.specs.Flushing.{names_below};

use spl_bundle::{Bundles, MAX_BRANCHES};
use spl_extent::Pool;
use spl_message::Content;
use spl_refs::Refs;
use spl_state::let_go_all;

/// Adds a reference to each of the branches.
pub(crate) fn hold_all<B: Content>(refs: &mut Refs<B>, numbers: &[u64])
    requires there { (number : ℕ) → 0 < times number numbers.now → IsSome (held_at refs.old number) }
    requires few { (number : ℕ) → count_at refs.old number < 2 ^ 62 }
    requires short { length numbers.now ≤ MAX_BRANCHES }
    ensures counts { (number : ℕ)
        → count_at refs.new number ≡ count_at refs.old number + times number numbers.now }
    ensures branches { (number : ℕ) → branch_at refs.new number ≡ branch_at refs.old number }
{
    for number in numbers {
        refs.hold(*number);
    }
}

/// Drops the references of the bundles below the number.
pub(crate) fn let_go_below<B: Content>(
    refs: &mut Refs<B>,
    pool: &mut Pool,
    lists: &Bundles,
    number: u64,
)
    requires made { number ≤ next_of lists.now }
    requires accounted { (rest : List ℕ)
        × AreAccounted B.extents (names_below lists.now number ++ rest) refs.old pool.old }
    ensures accounted { (rest : List ℕ)
        → AreAccounted B.extents (names_below lists.now number ++ rest) refs.old pool.old
        → AreAccounted B.extents rest refs.new pool.new }
    ensures granted { (actor : ℕ) → granted_to pool.new actor ≡ granted_to pool.old actor }
    ensures branches { (other : ℕ) → 0 < count_at refs.new other
        → branch_at refs.new other ≡ branch_at refs.old other }
    ensures fewer { (other : ℕ) → count_at refs.new other ≤ count_at refs.old other }
{
    for dropped in lists.first()..number {
        let_go_all(refs, pool, lists.list(dropped));
    }
}
