//! Streams: the merge of several branches, one entry after the other.
//!
//! Each branch is scanned on its own, and a merger takes what the scans give. A scan is asked for its
//! next entry only when the merger has taken the one before, so each entry is read once, and then
//! moved through. On every device the keys of the merge rise and lie in the span.
#![tactic(auto)]

mod merged;
mod streams;

pub use merged::Merged;

#[cfg(test)]
mod tests;
