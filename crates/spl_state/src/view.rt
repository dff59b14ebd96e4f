ghost use Rattle.std.specs.Prelude.{◌≡◌};

use spl_message::Key;
use spl_node::Pivot;
use std::marker::Model;

/// A bundle as a survey shows it.
#[derive(Clone, Copy, Debug, PartialEq, Eq)]
pub struct BundleView {
    pub number: u64,
    /// How many branches it has.
    pub branches: u32,
    /// The actor whose mark it carries.
    pub ticket: Option<u32>,
}

/// The pivots of a node, in the order of their keys. A clause sees the list.
#[derive(Debug, Drop)]
pub struct PivotList {
    pivots: Vec<Pivot>,
}

impl Model for PivotList {
    ghost use Rattle.std.specs.Prelude.{List};
    ghost use Rattle.spl_node.specs.declared.pivot.Pivot.{Pivot};

    ghost Value = { List Pivot };

    ghost view = { λ p. p.pivots.items };
}

impl PivotList {
    /// Wraps these pivots. It takes no memory.
    pub fn of(pivots: Vec<Pivot>) -> PivotList
        ensures { result ≡ pivots.items }
    {
        PivotList { pivots }
    }

    /// The pivots, in the order of their keys.
    pub fn as_slice(&self) -> &[Pivot]
        ensures { result.now ≡ self.now }
    {
        self.pivots.as_slice()
    }
}

/// The bundles of a node, oldest first. A clause sees the list.
#[derive(Debug, Drop)]
pub struct BundleViews {
    bundles: Vec<BundleView>,
}

impl Model for BundleViews {
    ghost use Rattle.std.specs.Prelude.{List};
    ghost use Rattle.spl_state.specs.declared.view.BundleView.{BundleView};

    ghost Value = { List BundleView };

    ghost view = { λ b. b.bundles.items };
}

impl BundleViews {
    /// Wraps these bundles. It takes no memory.
    pub fn of(bundles: Vec<BundleView>) -> BundleViews
        ensures { result ≡ bundles.items }
    {
        BundleViews { bundles }
    }

    /// The bundles, oldest first.
    pub fn as_slice(&self) -> &[BundleView]
        ensures { result.now ≡ self.now }
    {
        self.bundles.as_slice()
    }
}

/// A node as a survey shows it.
#[derive(Debug, Drop)]
pub struct View {
    pub height: u32,
    /// How often the node was split or raised.
    pub generation: u64,
    pub pivots: PivotList,
    pub bundles: BundleViews,
    /// The key at which the node is to be split, if it is to be split.
    pub split: Option<Key>,
    /// How many callers have not retired.
    pub running: u32,
}
