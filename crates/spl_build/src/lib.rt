//! The builder of a branch: it takes keys in rising order with their messages, and writes the branch's pages to a port.
//!
//! `add` puts an entry into the current leaf page, or first writes that page and begins the next one. `finish` writes
//! the last leaf page, and then, level by level, index pages over the pages without a parent, until one page is left:
//! the root. The caller hands in extents (`give`) when the builder asks for one (`Needs`). An extent is begun when its
//! first page is written, and sealed before the next one is begun.
//!
//! In memory are one page, a hash for each key, and an index entry for each page without a parent. `Pages` has the
//! extents, `Levels` the pages without a parent, `Keys` the hashes and cuts. `Work` puts them together, and `Builder`
//! remembers the first fault.
//!
//! The proof keeps two views of the work (`specs/Work.antt`): the leaf pages with the current one hold what was added,
//! and the pages without a parent are the roots of trees over these leaf pages.
#![tactic(auto)]

mod answer;
mod builder;
mod fault;
mod keys;
mod levels;
mod pages;
mod stage;
mod work;

pub use answer::{Add, Finish};
pub use builder::Builder;
pub use fault::BuildFault;
pub use stage::Stage;

#[cfg(test)]
mod tests;
