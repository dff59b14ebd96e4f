ghost use Rattle.std.specs.Prelude.{◌≡◌, map};

use spl_message::{Content, Span};
use spl_tables::Slices;
use std::marker::Model;
use std::sync::Arc;

/// Branches, oldest first, each shared with the store. A clause sees the list of them.
#[derive(Drop)]
pub struct Branches<B: Content> {
    branches: Vec<Arc<B>>,
}

impl<B: Content> Model for Branches<B> {
    ghost use Rattle.std.specs.Prelude.{List, map};

    ghost Value = { List B };

    ghost view = { λ b. map (λ branch. branch.value) b.branches.items };
}

impl<B: Content> Branches<B> {
    /// Wraps these branches. It takes no memory.
    pub fn of(branches: Vec<Arc<B>>) -> Branches<B>
        ensures { result ≡ map (λ branch. branch.value) branches.items }
    {
        Branches { branches }
    }

    /// The branches, oldest first.
    pub fn as_slice(&self) -> &[Arc<B>]
        ensures { map (λ branch. branch.value) result.now ≡ self.now }
    {
        self.branches.as_slice()
    }
}

/// What a descent is given at a node: with the tables and branches, oldest last, all that it has to know there.
#[derive(Drop)]
pub struct Sight<B: Content> {
    /// The place of the descent's call.
    pub place: u64,
    /// The keys asked for, with the end lowered to the end of the pivot that holds their start.
    pub span: Span,
    pub node: u32,
    /// Whether nothing lies below the node.
    pub leaf: bool,
    /// At the root the parts of the memtables in the span, oldest first; below it none.
    pub tables: Slices,
    /// The branches that are live for the pivot, oldest first.
    pub branches: Branches<B>,
}

/// What a merge is given: its run, and the branches to merge.
#[derive(Drop)]
pub struct Ticket<B: Content> {
    pub node: u32,
    pub first: u64,
    pub last: u64,
    pub generation: u64,
    /// The keys of the node.
    pub span: Span,
    /// Whether nothing older lies below the run.
    pub bottom: bool,
    /// The number of the branch to be made.
    pub number: u64,
    /// The run's branches, oldest first.
    pub inputs: Branches<B>,
}
