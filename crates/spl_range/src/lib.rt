//! Scans: the keys of a span that have a value, with their values, in pieces.
//!
//! A piece is one descent, to the leaf that has the start of what is left, and ends where that leaf's keys end. So each
//! piece is right for one place in the history of all calls, and the places of a scan rise. On the way down there is
//! one message for each key: first what the memtables have, and then, node by node, what the branches have is put under
//! it, the newest branch first. Each branch is scanned once and before its node is left, so that no branch is freed
//! under a read.
#![tactic(auto)]

mod add;
mod found;
mod gather;
mod latest;
mod piece;
mod pieces;

pub use pieces::{Piece, Pieces};

#[cfg(test)]
mod tests;
