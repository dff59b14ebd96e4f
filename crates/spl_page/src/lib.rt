//! The pages of a branch: lists of entries in the order of their keys, as bytes and back.
//!
//! A page that is read is checked against the page grammar of its place (`AnyPage::check`), so no damaged page, and no
//! page of another place, gets past this crate. A page that was checked is a `SoundPage`: binary search finds a key in
//! it, without a copy and without an error. `LeafWriter` and `IndexWriter` write a page entry by entry; the list types
//! `LeafPage` and `IndexPage` read and write whole pages.
//!
//! The format is drawn in `specs/Page.antt` of `spl_port`. The two kinds of pages share their code over the form of an
//! entry (`Form`).
#![tactic(auto)]

mod any_page;
mod fault;
mod form;
mod frame;
mod index_entry;
mod index_page;
mod index_slot;
mod index_writer;
mod leaf_entry;
mod leaf_page;
mod leaf_slot;
mod leaf_writer;
mod lent_entry;
mod lent_message;
mod lent_value;
mod page_text;
mod scan;
mod slot;
mod sound_index;
mod sound_leaf;
mod sound_page;
mod writer;

pub use any_page::{AnyPage, page_ok};
pub use fault::PageFault;
pub use form::{Form, IndexForm, LeafForm};
pub use index_entry::IndexEntry;
pub use index_page::IndexPage;
pub use index_writer::IndexWriter;
pub use leaf_entry::LeafEntry;
pub use leaf_page::LeafPage;
pub use leaf_writer::LeafWriter;
pub use lent_entry::LentEntry;
pub use lent_message::LentMessage;
pub use lent_value::LentValue;
pub use slot::Slot;
pub use sound_page::SoundPage;

#[cfg(test)]
mod search_tests;
#[cfg(test)]
mod tests;
