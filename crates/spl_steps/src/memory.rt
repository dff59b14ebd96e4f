//! The memtables: a put, and the freezing of a full one.
ghost use Rattle.std.specs.Prelude.{◌≡◌, ◌≢◌, ℕ, ◌+◌, ◌<◌, ◌≤◌, ◌↔◌, ◌⊎◌, List, length, true, if◌then◌else◌};
ghost use Rattle.spl_base.specs.declared.TheConstants.{ACTORS};
ghost use Rattle.spl_memtable.specs.Memtable.{IsFull, Puts};
ghost use Rattle.spl_message.specs.Key.{same_key};
ghost use Rattle.spl_message.specs.Message.{act};
ghost use Rattle.spl_message.specs.Rule.{Rule};
ghost use Rattle.spl_state.specs.Bounds.{AreBelow};
ghost use Rattle.spl_state.specs.Frame.{IsFramed, Others};
ghost use Rattle.spl_state.specs.Sound.{AreDrafts, meaning};
ghost use Rattle.spl_steps.specs.Memory.{HasPut, has_rotated};
ghost use Rattle.spl_message.specs.Table.{key_count};
ghost use Rattle.spl_memtable.specs.declared.memtable.TheConstants.{MEMTABLE_KEYS};
ghost use Rattle.spl_tables.specs.declared.memtables.TheConstants.{FROZEN_TABLES};

use spl_base::{ACTORS, NoMemory};
use spl_memtable::Put;
use spl_message::{Content, Key, MergeLaw, Message};
use spl_state::{Parts, Reply};
use spl_tables::Rotation;

/// Adds the message to what the key has, at the next place.
pub fn put<B: Content, L: MergeLaw>(
    parts: &mut Parts<B>,
    law: &L,
    key: &Key,
    message: Message,
) -> Reply<B>
    requires ready { L.ready law.now }
    requires counted { AreBelow parts.old.nodes parts.old.tables parts.old.counters }
    ensures full { (result ≡ Reply.MemFull) ↔ IsFull parts.old.tables.active key.now }
    ensures answer { ¬ (IsFull parts.old.tables.active key.now)
        → (result ≡ Reply.Placed parts.old.counters.places) ⊎ (result ≡ Reply.NoMemory) }
    ensures placed { (place : ℕ) → result ≡ Reply.Placed place → HasPut parts.old parts.new
        × Puts (L.rule law.now) parts.old.tables.active parts.new.tables.active key.now message }
    ensures refused { ((place : ℕ) → result ≢ Reply.Placed place) → parts.new ≡ parts.old }
    ensures means { (place : ℕ) → result ≡ Reply.Placed place → B.TELLS ≡ true → (other : List ℕ)
        → meaning (L.rule law.now) parts.new other ≡ (if same_key other key.now
        then act (L.rule law.now) other (meaning (L.rule law.now) parts.old other) message
        else meaning (L.rule law.now) parts.old other) }
    ensures others { (rule : Rule) → Others rule B.TELLS parts.old parts.new }
    ensures steps { parts.new.counters.steps ≡ parts.old.counters.steps }
{
    let place = parts.counters.places;
    match parts.tables.put(law, key, message) {
        Ok(Put::Done) => {
            parts.counters.places += 1;
            Reply::Placed { place }
        }
        Ok(Put::Full) => Reply::MemFull,
        Err(NoMemory) => Reply::NoMemory,
    }
}

/// Freezes the active memtable, if it is full.
pub fn rotate<B: Content>(parts: &mut Parts<B>, actor: u32) -> Reply<B>
    requires counted { AreBelow parts.old.nodes parts.old.tables parts.old.counters }
    ensures not_full { (result ≡ Reply.NotFull) ↔ (key_count parts.old.tables.active < MEMTABLE_KEYS) }
    ensures frozen_full { (result ≡ Reply.FrozenFull)
        ↔ ((key_count parts.old.tables.active ≡ MEMTABLE_KEYS) × (length parts.old.tables.frozen ≡ FROZEN_TABLES)) }
    ensures answer { MEMTABLE_KEYS ≤ key_count parts.old.tables.active → length parts.old.tables.frozen < FROZEN_TABLES
        → (result ≡ Reply.Rotated) ⊎ (result ≡ Reply.NoMemory) }
    ensures rotated { result ≡ Reply.Rotated → parts.new ≡ has_rotated parts.old }
    ensures refused { result ≢ Reply.Rotated → parts.new ≡ parts.old }
    ensures counters { parts.new.counters ≡ parts.old.counters }
    ensures framed { (rule : Rule) → (B.TELLS ≡ true → AreDrafts rule parts.old) → IsFramed rule B.TELLS parts.old parts.new actor }
{
    match parts.tables.rotate() {
        Ok(Rotation::Rotated) => Reply::Rotated,
        Ok(Rotation::NotFull) => Reply::NotFull,
        Ok(Rotation::FrozenFull) => Reply::FrozenFull,
        Err(NoMemory) => Reply::NoMemory,
    }
}
