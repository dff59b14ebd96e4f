ghost use Rattle.std.specs.Prelude.{◌≡◌};

use spl_message::Span;
use std::marker::Model;

/// The numbers of the branches of a run, oldest first. A clause sees the list.
#[derive(Debug, Drop)]
pub struct Inputs {
    numbers: Vec<u64>,
}

impl Model for Inputs {
    ghost use Rattle.std.specs.Prelude.{ℕ, List};

    ghost Value = { List ℕ };

    ghost view = { λ i. i.numbers.items };
}

impl Inputs {
    /// Wraps these numbers. It takes no memory.
    pub fn of(numbers: Vec<u64>) -> Inputs
        ensures { result ≡ numbers.items }
    {
        Inputs { numbers }
    }

    /// The numbers, oldest first.
    pub fn as_slice(&self) -> &[u64]
        ensures { result.now ≡ self.now }
    {
        self.numbers.as_slice()
    }
}

/// The bundles of a node that one actor merges, with what they and the node were when it began.
#[derive(Debug, Drop)]
pub struct Run {
    /// The node at which it began. A split passes the run on to the new node too.
    pub node: u32,
    /// The number of its first bundle.
    pub first: u64,
    /// The number of its last bundle.
    pub last: u64,
    /// The generation of the node.
    pub generation: u64,
    /// The keys of the node.
    pub span: Span,
    /// Whether nothing older lay below it: the node was a leaf, and the run began with its first bundle.
    pub bottom: bool,
    /// The branches of its bundles.
    pub inputs: Inputs,
}

/// What an actor makes a new branch of. The branch's number is that of the job.
#[derive(Debug, Drop)]
pub enum Job {
    /// Of the frozen memtable with this number.
    Pack { number: u64, table: u64 },
    /// Of a run of bundles.
    Merge { number: u64, run: Run },
}
