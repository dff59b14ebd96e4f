ghost use Rattle.std.specs.Prelude.{◌≡◌, ℕ, ◌+◌, ◌<◌, ◌≤◌, ◌^◌, ◌↔◌, List, [], ◌∷◌, length, map, vec_len, vec_capacity, true, None, Some, Ok, IfOk, IfSome, IfNone, OnOk, OnErr, IsNone, IsSome};
ghost use Rattle.spl_message.specs.Span.{in_span};
ghost use Rattle.spl_message.specs.Table.{as_table, chain, key_count, part_of};
ghost use Rattle.spl_memtable.specs.Memtable.{IsFull, Puts};
ghost use Rattle.spl_tables.specs.Memtables.{AreMemtables, tables_of, no_tables, rotated, first_unpicked, frozen_at, picked_by, released_by, without_picks, without_oldest};
ghost use Rattle.spl_tables.specs.Picked.{IsOf};

use crate::frozen_table::{FrozenTable, Picked};
use crate::slices::Slices;
use spl_memtable::{Frozen, MEMTABLE_KEYS, Memtable, Put, Slice};
use spl_message::{Key, MergeLaw, Message, NoMemory, Span};
use std::alloc::Global;
use std::marker::Model;
use std::mem;
use std::sync::Arc;

/// The greatest number of frozen memtables.
pub const FROZEN_TABLES: u32 = 4;

const _: () = prove!(FROZEN_TABLES == 4);

const _: () = prove!(MEMTABLE_KEYS == 1024);

/// The memtables of a store. In a clause it is plain data: the tables, and the numbers and picks of
/// the frozen ones.
///
/// Only `new`, `put`, `rotate` and `slices` take memory. `pick` fails only if the count of a pointer's owners is at its
/// greatest value.
#[derive(Debug, Drop)]
pub struct Memtables {
    active: Memtable,
    /// The oldest first, with space reserved for all four.
    frozen: Vec<FrozenTable>,
    next: u64,
    alloc: Global,
}

impl Model for Memtables {
    ghost use Rattle.spl_tables.specs.Memtables.{MemtableData};
    ghost use Rattle.std.specs.Prelude.{vec_capacity};
    ghost use Rattle.spl_tables.specs.Room.{data_of, IsSound};

    ghost Value = { MemtableData };

    ghost view = { λ m. data_of m.active m.frozen.items m.next };

    ghost invariant = { λ m. IsSound (data_of m.active m.frozen.items m.next) (vec_capacity m.frozen) };
}

/// The result of `rotate`.
#[derive(Clone, Copy, Debug, PartialEq, Eq)]
pub enum Rotation {
    /// The active memtable is frozen, and a new one takes the writes.
    Rotated,
    /// The active memtable has room for another key.
    NotFull,
    /// Four memtables are frozen already.
    FrozenFull,
}

/// The oldest frozen memtable: its number, and who picked it.
#[derive(Clone, Copy, Debug, PartialEq, Eq)]
pub struct Oldest {
    pub number: u64,
    pub picked: Option<u32>,
}

impl Memtables {
    /// The memtables of a new store: no keys, and nothing frozen.
    pub fn new(alloc: Global) -> Result<Memtables, NoMemory>
        ensures { IfOk result (λ memtables. memtables ≡ no_tables) }
    {
        Ok(Memtables {
            active: Memtable::new(alloc),
            frozen: Vec::with_capacity(alloc, FROZEN_TABLES as usize)?,
            next: 0,
            alloc,
        })
    }

    /// Adds the message to what the key has in the active memtable.
    pub fn put<L: MergeLaw>(
        &mut self,
        law: &L,
        key: &Key,
        message: Message,
    ) -> Result<Put, NoMemory>
        requires { L.ready law.now }
        ensures full { (result ≡ Ok Put.Full) ↔ IsFull self.old.active key.now }
        ensures unchanged { result ≡ Ok Put.Full → self.new ≡ self.old }
        ensures done { result ≡ Ok Put.Done
            → Puts (L.rule law.now) self.old.active self.new.active key.now message }
        ensures err { OnErr result (self.new ≡ self.old) }
        ensures frozen { self.new.frozen ≡ self.old.frozen }
        ensures next { self.new.next ≡ self.old.next }
    {
        self.active.put(law, key, message)
    }

    /// Freezes the active memtable where it is full, and begins a new one.
    pub fn rotate(&mut self) -> Result<Rotation, NoMemory>
        requires { self.old.next < 2 ^ 63 }
        ensures rotated { result ≡ Ok Rotation.Rotated → self.new ≡ rotated self.old }
        ensures not_full { (result ≡ Ok Rotation.NotFull) ↔ (key_count self.old.active < MEMTABLE_KEYS) }
        ensures frozen_full { (result ≡ Ok Rotation.FrozenFull)
            ↔ ((key_count self.old.active ≡ MEMTABLE_KEYS) × (length self.old.frozen ≡ FROZEN_TABLES)) }
        ensures kept_not_full { result ≡ Ok Rotation.NotFull → self.new ≡ self.old }
        ensures kept_frozen_full { result ≡ Ok Rotation.FrozenFull → self.new ≡ self.old }
        ensures err { OnErr result (self.new ≡ self.old) }
    {
        if self.active.keys() < MEMTABLE_KEYS {
            return Ok(Rotation::NotFull);
        }
        if self.frozen.len() == FROZEN_TABLES as usize {
            return Ok(Rotation::FrozenFull);
        }
        let table = freeze(self.alloc, &mut self.active)?;
        self.frozen
            .push_reserved(FrozenTable::new(self.next, table));
        self.next += 1;
        Ok(Rotation::Rotated)
    }

    /// How many keys the active memtable has.
    pub fn keys(&self) -> u32
        ensures value { result ≡ key_count self.now.active }
        ensures sound { AreMemtables self.now }
    {
        self.active.keys()
    }

    /// How many frozen memtables there are.
    pub fn frozen(&self) -> u32
        ensures value { result ≡ length self.now.frozen }
        ensures sound { AreMemtables self.now }
    {
        self.frozen.len() as u32
    }

    /// The number that the next frozen memtable gets.
    pub fn next(&self) -> u64
        ensures { result ≡ self.now.next }
    {
        self.next
    }

    /// The parts of the span of all memtables, the oldest first. Only the active one's messages are copied.
    pub fn slices(&self, alloc: Global, span: &Span) -> Result<Slices, NoMemory>
        ensures parts { IfOk result (λ slices. slices ≡ map (part_of span.now) (tables_of self.now)) }
        ensures chain { IfOk result (λ slices. (key : List ℕ) → in_span span.now key ≡ true
            → chain slices key ≡ chain (tables_of self.now) key) }
    {
        let mut slices = frozen_slices(alloc, self.frozen.as_slice(), span)?;
        let newest = self.active.slice(span)?;
        slices.push_reserved(newest);
        Ok(Slices::of(slices))
    }

    /// Gives the actor the oldest frozen memtable that nobody picked, if there is one.
    pub fn pick(&mut self, actor: u32) -> Result<Option<Picked>, NoMemory>
        ensures none { IfOk result (λ picked. IsNone picked ↔ IsNone (first_unpicked self.old.frozen)) }
        ensures unchanged { IsNone (first_unpicked self.old.frozen) → self.new ≡ self.old }
        ensures picked { (position : ℕ) → first_unpicked self.old.frozen ≡ Some position
            → OnOk result (self.new ≡ picked_by self.old position actor) }
        ensures given { (position : ℕ) → first_unpicked self.old.frozen ≡ Some position
            → IfOk result (λ picked. IfSome picked (λ it. IsOf it (frozen_at self.old.frozen position))) }
        ensures memory { OnErr result (IsSome (first_unpicked self.old.frozen)) }
        ensures err { OnErr result (self.new ≡ self.old) }
    {
        match self.first_unpicked() {
            Some(position) => {
                let frozen = &mut self.frozen[position];
                Ok(Some(frozen.pick(actor)?))
            }
            None => Ok(None),
        }
    }

    fn first_unpicked(&self) -> Option<usize>
        ensures { result ≡ first_unpicked self.now.frozen }
    {
        self.frozen.iter().position(|table| table.is_unpicked())
    }

    /// The oldest frozen memtable, if there is one.
    pub fn oldest(&self) -> Option<Oldest>
        ensures none { IsNone result ↔ (length self.now.frozen ≡ 0) }
        ensures number { IfSome result (λ oldest. oldest.number ≡ (frozen_at self.now.frozen 0).number) }
        ensures picked { IfSome result (λ oldest. oldest.picked ≡ (frozen_at self.now.frozen 0).picked) }
    {
        let table = self.frozen.first()?;
        Some(Oldest {
            number: table.number(),
            picked: table.picked(),
        })
    }

    /// Drops the oldest frozen memtable.
    pub fn remove_oldest(&mut self)
        requires { 0 < length self.old.frozen }
        ensures { self.new ≡ without_oldest self.old }
    {
        self.frozen.remove(0);
    }

    /// Gives back what the actor picked, so that it can be picked again.
    pub fn release(&mut self, actor: u32)
        ensures { self.new ≡ without_picks self.old actor }
    {
        release_all(self.frozen.as_mut_slice(), actor);
    }
}

/// Freezes the memtable and leaves one without keys.
fn freeze(alloc: Global, active: &mut Memtable) -> Result<Arc<Frozen>, NoMemory>
    ensures frozen { IfOk result (λ frozen. frozen.value ≡ active.old) }
    ensures empty { OnOk result (active.new ≡ as_table []) }
    ensures err { OnErr result (active.new ≡ active.old) }
{
    // The memory is taken before anything changes, and nobody shares it yet.
    let mut room = Arc::new(alloc, Memtable::new(alloc).freeze())?;
    match Arc::get_mut(&mut room) {
        Some(frozen) => {
            *frozen = mem::replace(active, Memtable::new(alloc)).freeze();
            Ok(room)
        }
        None => Err(NoMemory),
    }
}

/// The parts of the span, with room for one more.
fn frozen_slices(alloc: Global, tables: &[FrozenTable], span: &Span) -> Result<Vec<Slice>, NoMemory>
    ensures parts { IfOk result (λ slices.
        slices.items ≡ map (λ frozen. part_of span.now frozen.table) tables.now) }
    ensures room { IfOk result (λ slices. vec_len slices < vec_capacity slices) }
{
    let mut slices = Vec::with_capacity(alloc, tables.len() + 1)?;
    for table in tables {
        slices.push_reserved(table.slice(span)?);
    }
    Ok(slices)
}

fn release_all(tables: &mut [FrozenTable], actor: u32)
    ensures { tables.new ≡ map (released_by actor) tables.old }
{
    for table in tables.iter_mut() {
        table.release(actor);
    }
}
