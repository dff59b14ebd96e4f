ghost use Rattle.std.specs.Prelude.{◌≡◌, None, IfOk, OnOk, OnErr, is_none};
ghost use Rattle.spl_message.specs.Table.{part_of};
ghost use Rattle.spl_tables.specs.Memtables.{taken_by, released_by};
ghost use Rattle.spl_tables.specs.Picked.{IsOf};

use spl_memtable::{Frozen, Slice};
use spl_message::{NoMemory, Span};
use std::marker::Model;
use std::sync::Arc;

const EVERYTHING: Span = Span {
    from: None,
    to: None,
};

/// A frozen memtable with its number, and the actor who picked it, where one did.
#[derive(Debug, Drop)]
pub(crate) struct FrozenTable {
    number: u64,
    table: Arc<Frozen>,
    picked: Option<u32>,
}

impl Model for FrozenTable {
    ghost use Rattle.spl_tables.specs.Memtables.{FrozenData};

    ghost Value = { FrozenData };

    ghost view = { λ f. record { number = f.number; table = f.table.value; picked = f.picked } };
}

/// What an actor that picks a frozen memtable is given: its number, and all of it.
#[derive(Debug, Drop)]
pub struct Picked {
    pub number: u64,
    pub table: Slice,
}

impl FrozenTable {
    /// Nobody has picked it.
    pub(crate) fn new(number: u64, table: Arc<Frozen>) -> FrozenTable
        ensures { result ≡ record { number = number; table = table.value; picked = None } }
    {
        FrozenTable {
            number,
            table,
            picked: None,
        }
    }

    pub(crate) fn number(&self) -> u64
        ensures { result ≡ self.now.number }
    {
        self.number
    }

    /// Who picked it.
    pub(crate) fn picked(&self) -> Option<u32>
        ensures { result ≡ self.now.picked }
    {
        self.picked
    }

    pub(crate) fn is_unpicked(&self) -> bool
        ensures { result ≡ is_none self.now.picked }
    {
        self.picked.is_none()
    }

    /// The part of the span, which copies no message.
    pub(crate) fn slice(&self, span: &Span) -> Result<Slice, NoMemory>
        ensures { IfOk result (λ slice. slice ≡ part_of span.now self.now.table) }
    {
        self.table.slice(span)
    }

    pub(crate) fn pick(&mut self, actor: u32) -> Result<Picked, NoMemory>
        ensures ok { OnOk result (self.new ≡ taken_by actor self.old) }
        ensures given { IfOk result (λ picked. IsOf picked self.old) }
        ensures err { OnErr result (self.new ≡ self.old) }
    {
        let table = self.table.slice(&EVERYTHING)?;
        self.picked = Some(actor);
        Ok(Picked {
            number: self.number,
            table,
        })
    }

    pub(crate) fn release(&mut self, actor: u32)
        ensures { self.new ≡ released_by actor self.old }
    {
        if self.picked == Some(actor) {
            self.picked = None;
        }
    }
}
