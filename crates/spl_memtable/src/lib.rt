//! The memtable: the messages of the latest writes, in memory and in the order of their keys.
//!
//! A write to an existing key is combined with the key's message, so a memtable has one message a key, and at most
//! 1,024 keys. A full one is frozen: it takes no more messages, and its contents stay. Readers take slices, the keys
//! and messages of a span: copied from the active table, shared with a frozen one.
#![tactic(auto)]

mod entries;
mod frozen;
mod memtable;
mod slice;

pub use entries::Entries;
pub use frozen::Frozen;
pub use memtable::{MEMTABLE_KEYS, Memtable, Put};
pub use slice::Slice;

#[cfg(test)]
mod tests;
