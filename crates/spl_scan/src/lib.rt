//! Scans: the entries of a branch that lie in a span, in the order of their keys.
//!
//! A scan begins at the first leaf page that may have an entry of the span, and goes from leaf page to leaf page. It
//! reads each once, and keeps it while it gives the page's entries. It owns a share of its branch, so the branch
//! outlives it. On every device the keys that it gives rise and lie in the span: other entries are passed over.
#![tactic(auto)]

mod met;
mod scan;

pub use scan::Scan;

#[cfg(test)]
mod tests;
