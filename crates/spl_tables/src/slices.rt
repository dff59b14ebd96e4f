ghost use Rattle.std.specs.Prelude.{◌≡◌, [], ◌∷◌, ◌++◌, OnOk, OnErr};

use spl_memtable::Slice;
use spl_message::NoMemory;
use std::alloc::Global;
use std::marker::Model;

/// Parts of tables, the oldest first. A clause sees the list of them.
#[derive(Debug, Drop)]
pub struct Slices {
    slices: Vec<Slice>,
}

impl Model for Slices {
    ghost use Rattle.std.specs.Prelude.{List};
    ghost use Rattle.spl_message.specs.Table.{Table};

    ghost Value = { List Table };

    ghost view = { λ s. s.slices.items };
}

impl Slices {
    /// No parts. It takes no memory.
    pub fn empty(alloc: Global) -> Slices
        ensures { result ≡ [] }
    {
        Slices {
            slices: Vec::new(alloc),
        }
    }

    pub(crate) fn of(slices: Vec<Slice>) -> Slices
        ensures { result ≡ slices.items }
    {
        Slices { slices }
    }

    /// The parts, the oldest first.
    pub fn as_slice(&self) -> &[Slice]
        ensures { result.now ≡ self.now }
    {
        self.slices.as_slice()
    }
}
