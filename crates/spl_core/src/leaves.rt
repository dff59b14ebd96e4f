//! How many leaves a trunk has.
ghost use Rattle.std.specs.Prelude.{◌≡◌};
ghost use Rattle.spl_core.specs.Leaves.{leaf_count};

use spl_trunk::Trunk;

/// How many nodes of the trunk are leaves.
pub fn leaf_count(trunk: &Trunk) -> u32
    ensures { result ≡ leaf_count trunk.now }
{
    let mut leaves = 0;
    for number in 0..trunk.count() {
        if trunk.node(number).unwrap().height() == 0 {
            leaves += 1;
        }
    }
    leaves
}
