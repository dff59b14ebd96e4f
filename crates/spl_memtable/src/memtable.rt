ghost use Rattle.std.specs.Prelude.{◌≡◌, ℕ, List, if◌then◌else◌, ◌≤◌, ◌↔◌, [], ◌∷◌, ◌++◌, filter, IsOk, IsSome, None, Some, IfOk, OnErr};
ghost use Rattle.std.specs.Option.{option_copied};
ghost use Rattle.spl_message.specs.Entries.{AreEntries};
ghost use Rattle.spl_message.specs.Message.{combine, IsUpdate};
ghost use Rattle.spl_message.specs.Span.{in_span, is_from};
ghost use Rattle.spl_message.specs.Table.{IsTable, as_table, key_count, message_at, part_of};
ghost use Rattle.spl_memtable.specs.Memtable.{IsFull, Puts};

use crate::{Entries, Frozen, Slice};
use spl_message::{Key, MergeLaw, Message, NoMemory, Span, combine};
use std::alloc::Global;
use std::collections::BTreeMap;
use std::collections::btree_map::Range;
use std::marker::Model;
use std::ops;

/// The greatest number of keys of a memtable.
pub const MEMTABLE_KEYS: u32 = 1024;

/// Messages of keys, one a key and at most 1,024. A clause sees the table of them.
#[derive(Debug, Drop)]
pub struct Memtable {
    entries: BTreeMap<Key, Message>,
    alloc: Global,
}

impl Model for Memtable {
    ghost use Rattle.std.specs.Prelude.{◌≤◌, length};
    ghost use Rattle.spl_message.specs.Table.{Table, as_table};

    ghost Value = { Table };

    ghost view = { λ m. as_table m.entries.entries };

    ghost invariant = { λ m. length m.entries.entries ≤ 1024 };
}

/// The result of `put`.
#[derive(Clone, Copy, Debug, PartialEq, Eq)]
pub enum Put {
    /// The message was added.
    Done,
    /// The memtable has 1,024 other keys.
    Full,
}

impl Memtable {
    /// A memtable with no keys, which takes no memory.
    pub fn new(alloc: Global) -> Memtable
        ensures { result ≡ as_table [] }
    {
        Memtable {
            entries: BTreeMap::new(alloc),
            alloc,
        }
    }

    /// Adds the message to what the key has. Only a new key, or an update of an existing one, takes memory.
    pub fn put<L: MergeLaw>(
        &mut self,
        law: &L,
        key: &Key,
        message: Message,
    ) -> Result<Put, NoMemory>
        requires { L.ready law.now }
        ensures full { (result ≡ Ok Put.Full) ↔ IsFull self.old key.now }
        ensures unchanged { result ≡ Ok Put.Full → self.new ≡ self.old }
        ensures done { result ≡ Ok Put.Done → Puts (L.rule law.now) self.old self.new key.now message }
        ensures free { IsSome (message_at self.old key.now) → ¬ (IsUpdate (Some message)) → IsOk result }
        ensures err { OnErr result (self.new ≡ self.old) }
    {
        if let Some(older) = self.entries.get_mut(key) {
            *older = joined(self.alloc, law, key, older, message)?;
            return Ok(Put::Done);
        }
        if self.keys() == MEMTABLE_KEYS {
            return Ok(Put::Full);
        }
        self.entries.insert(*key, message)?;
        Ok(Put::Done)
    }

    /// The message of the key.
    pub fn get(&self, key: &Key) -> Option<&Message>
        ensures { option_copied result ≡ message_at self.now key.now }
    {
        self.entries.get(key)
    }

    /// How many keys there are.
    pub fn keys(&self) -> u32
        ensures value { result ≡ key_count self.now }
        ensures limit { result ≤ 1024 }
        ensures order { IsTable self.now }
    {
        self.entries.len() as u32
    }

    /// The keys and messages of the span, in order.
    pub fn entries(&self, span: &Span) -> Entries<'_>
        ensures value { result ≡ (part_of span.now self.now).messages }
        ensures order { IsTable (part_of span.now self.now) }
    {
        Entries::of_range(entries_from(&self.entries, &span.from), span.to)
    }

    /// The part of the span, with copies of its messages.
    pub fn slice(&self, span: &Span) -> Result<Slice, NoMemory>
        ensures part { IfOk result (λ slice. slice ≡ part_of span.now self.now) }
        ensures messages { IfOk result (λ slice. (key : List ℕ)
            → message_at slice key ≡ (if in_span span.now key then message_at self.now key else None)) }
    {
        let mut entries = Vec::new(self.alloc);
        for (key, message) in self.entries(span) {
            entries.push((*key, message.copy()?))?;
        }
        Ok(Slice::of(entries))
    }

    /// Freezes the memtable. It takes no memory.
    pub fn freeze(self) -> Frozen
        ensures { result ≡ self }
    {
        Frozen::of(self)
    }
}

/// The key's message once the new one came. An insert or a delete replaces what was there.
fn joined<L: MergeLaw>(
    alloc: Global,
    law: &L,
    key: &Key,
    older: &Message,
    message: Message,
) -> Result<Message, NoMemory>
    requires { L.ready law.now }
    ensures value { IfOk result (λ both. both ≡ combine (L.rule law.now) key.now older.now message) }
    ensures free { ¬ (IsUpdate (Some message)) → IsOk result }
{
    match &message {
        Message::Update(_) => combine(alloc, law, key, older, &message),
        Message::Insert(_) | Message::Delete => Ok(message),
    }
}

/// The entries from the start on, found by the start.
fn entries_from<'a>(
    entries: &'a BTreeMap<Key, Message>,
    start: &Option<Key>,
) -> Range<'a, Key, Message>
    ensures start { result ≡ filter (λ entry. is_from start.now entry.0) entries.now.entries }
    ensures order { AreEntries entries.now.entries }
{
    let start = match start {
        Some(key) => ops::Bound::Included(*key),
        None => ops::Bound::Unbounded,
    };
    entries.range((start, ops::Bound::Unbounded))
}
