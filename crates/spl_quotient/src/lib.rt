//! Quotient filters: which keys a branch may have, by the fingerprints of their hashes.
//!
//! A fingerprint is the top q + 12 bits of a key's hash: q bits of quotient and 12 of remainder. The table has 2^q
//! slots, at most half of them in use. A remainder lies in the slot with the number of its quotient, or behind it where
//! that slot is taken: the remainders of one quotient lie next to each other as its run, runs lie in the order of their
//! quotients, and they wrap around at the end of the table. Three bits a slot say which run is whose:
//!
//! | occupied     | some fingerprint has the slot's number as its quotient; its run may lie further on |
//! | continuation | the remainder here is of the same run as the one before it                         |
//! | shifted      | the remainder here is not in the slot of its quotient                              |
//!
//! So a cluster has as many runs as occupied slots, in the same order; that is how the run of a quotient is found.
//! Callers see only the fingerprints.
#![tactic(auto)]

mod filter;
mod find;
mod hash;
mod lay;
mod prints;
mod slot;
mod table;

pub use filter::Filter;
pub use hash::fingerprint;
pub use spl_message::fnv;

#[cfg(test)]
mod tests;
