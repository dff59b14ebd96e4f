ghost use Rattle.std.specs.Prelude.{◌≡◌};
ghost use Rattle.std.specs.Option.{option_copied};
ghost use Rattle.spl_message.specs.Entries.{AreEntries};
ghost use Rattle.spl_message.specs.Table.{IsTable, as_table, message_at, part_of};

use crate::{Entries, Frozen};
use spl_message::{Key, Message, Span};
use std::marker::Model;
use std::sync::Arc;

/// The keys and messages of a span: in memory of its own, or as a part of a frozen memtable that it shares, which no
/// slice changes and each keeps alive. A clause sees the table of them.
#[derive(Debug, Drop)]
pub struct Slice {
    part: Part,
}

/// Where a slice has its keys and messages.
#[derive(Debug, Drop)]
pub(crate) enum Part {
    Own(Vec<(Key, Message)>),
    Shared(Arc<Frozen>, Span),
}

impl Model for Slice {
    ghost use Rattle.spl_message.specs.Table.{Table};

    ghost Value = { Table };

    ghost use Rattle.spl_memtable.specs.Slice.{shown, IsSound};

    ghost view = { λ s. shown s.part };

    ghost invariant = { λ s. IsSound s.part };
}

impl Slice {
    /// A slice of these entries. It takes no memory.
    pub fn of(entries: Vec<(Key, Message)>) -> Slice
        requires { AreEntries entries.items }
        ensures { result ≡ as_table entries.items }
    {
        Slice {
            part: Part::Own(entries),
        }
    }

    /// The part of a shared table that lies in the span. It takes no memory.
    pub(crate) fn shared(frozen: Arc<Frozen>, span: Span) -> Slice
        ensures { result ≡ part_of span frozen.value }
    {
        Slice {
            part: Part::Shared(frozen, span),
        }
    }

    /// The keys and messages, in the order of the keys.
    pub fn entries(&self) -> Entries<'_>
        ensures value { result ≡ self.now.messages }
        ensures order { IsTable self.now }
    {
        match &self.part {
            Part::Own(entries) => Entries::of_list(entries),
            Part::Shared(frozen, span) => frozen.entries(span),
        }
    }

    /// The message of the key.
    pub fn get(&self, key: &Key) -> Option<&Message>
        ensures { option_copied result ≡ message_at self.now key.now }
    {
        match &self.part {
            Part::Own(entries) => found(entries, key),
            Part::Shared(frozen, span) => {
                if span.holds(key) {
                    frozen.get(key)
                } else {
                    None
                }
            }
        }
    }
}

/// The message of the key, by a binary search.
fn found<'a>(entries: &'a [(Key, Message)], key: &Key) -> Option<&'a Message>
    requires { AreEntries entries.now }
    ensures { option_copied result ≡ message_at (as_table entries.now) key.now }
{
    match entries.binary_search_by(|entry| entry.0.cmp(key)) {
        Ok(place) => Some(&entries[place].1),
        Err(_) => None,
    }
}
