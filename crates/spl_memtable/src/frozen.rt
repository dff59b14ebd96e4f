ghost use Rattle.std.specs.Prelude.{◌≡◌, ℕ, List, if◌then◌else◌, ◌≤◌, None, IfOk};
ghost use Rattle.std.specs.Option.{option_copied};
ghost use Rattle.spl_message.specs.Span.{in_span};
ghost use Rattle.spl_message.specs.Table.{IsTable, key_count, message_at, part_of};

use crate::{Entries, Memtable, Slice};
use spl_message::{Key, Message, NoMemory, Span};
use std::marker::Model;
use std::sync::Arc;

/// A memtable that takes no more messages, so that many may share it. A clause sees the table that it has.
#[derive(Debug, Drop)]
pub struct Frozen {
    memtable: Memtable,
}

impl Model for Frozen {
    ghost use Rattle.spl_message.specs.Table.{Table};

    ghost Value = { Table };

    ghost view = { λ f. f.memtable };
}

impl Frozen {
    pub(crate) fn of(memtable: Memtable) -> Frozen
        ensures { result ≡ memtable }
    {
        Frozen { memtable }
    }

    /// The message of the key.
    pub fn get(&self, key: &Key) -> Option<&Message>
        ensures { option_copied result ≡ message_at self.now key.now }
    {
        self.memtable.get(key)
    }

    /// How many keys there are.
    pub fn keys(&self) -> u32
        ensures value { result ≡ key_count self.now }
        ensures limit { result ≤ 1024 }
        ensures order { IsTable self.now }
    {
        self.memtable.keys()
    }

    /// The keys and messages of the span, in order.
    pub fn entries(&self, span: &Span) -> Entries<'_>
        ensures value { result ≡ (part_of span.now self.now).messages }
        ensures order { IsTable (part_of span.now self.now) }
    {
        self.memtable.entries(span)
    }

    /// The part of the span, which shares this table: no message is copied.
    pub fn slice(self: &Arc<Frozen>, span: &Span) -> Result<Slice, NoMemory>
        ensures part { IfOk result (λ slice. slice ≡ part_of span.now self.now.value) }
        ensures messages { IfOk result (λ slice. (key : List ℕ)
            → message_at slice key ≡ (if in_span span.now key then message_at self.now.value key else None)) }
    {
        let frozen = self.clone()?;
        Ok(Slice::shared(frozen, *span))
    }
}
