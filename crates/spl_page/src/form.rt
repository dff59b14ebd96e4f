//! The two kinds of pages, by how an entry is read.
ghost use Rattle.std.specs.Prelude.{◌≡◌, ◌≤◌, ℕ, Bool, List, Option, length, IfSome};
ghost use Rattle.std.specs.Option.{option_map};

use crate::frame::{INDEX_KIND, LEAF_KIND};
use crate::index_slot::IndexSlot;
use crate::leaf_slot::LeafSlot;
use crate::slot::Slot;

/// A kind of pages, by its entries.
pub trait Form: Drop {
    /// The first byte of a page of this kind.
    const KIND: u8;

    ghost KIND: { ℕ };

    /// Whether it is the kind of the leaf pages.
    ghost LEAF: { Bool };

    ghost Entry: { Type 0 };

    /// The entry at the front of bytes of a page with this number, if there is one.
    ghost entry: { ℕ → List ℕ → Option Entry };

    /// How many bytes it has.
    ghost entry_length: { List ℕ → ℕ };

    ghost entry_key: { Entry → List ℕ };

    /// How many bytes an entry takes that is written.
    ghost size: { Entry → ℕ };

    /// Whether it can stand in a page with this number.
    ghost IsAt: { ℕ → Entry → Type 0 };

    /// Where the entry at the front of these bytes of a page with this number lies, if there is one.
    fn slot<'a>(page: u32, bytes: &'a [u8]) -> Option<Slot<'a>>
        ensures key { option_map (λ slot. slot.key.now) result ≡ option_map entry_key (entry page bytes.now) }
        ensures length { IfSome result (λ slot. slot.size ≡ entry_length bytes.now) }
        ensures within { IfSome result (λ slot. slot.size ≤ length bytes.now) };
}

/// A leaf page: keys with their messages.
#[derive(Clone, Copy, Debug, PartialEq, Eq)]
pub struct LeafForm;

impl Form for LeafForm {
    ghost use Rattle.std.specs.Prelude.{true};
    ghost use Rattle.spl_port.specs.Page.{LeafRow, leaf_row, leaf_row_length};
    ghost use Rattle.spl_page.specs.Tables.{leaf_size};

    const KIND: u8 = LEAF_KIND;

    ghost KIND = { 76 };

    ghost LEAF = { true };

    ghost Entry = { LeafRow };

    ghost entry = { λ page. leaf_row };

    ghost entry_length = { leaf_row_length };

    ghost entry_key = { λ row. row.key };

    ghost size = { leaf_size };

    ghost IsAt = { λ _ _. Unit {0} };

    fn slot<'a>(_page: u32, bytes: &'a [u8]) -> Option<Slot<'a>> {
        let slot = LeafSlot::read(bytes)?;
        Some(Slot {
            key: slot.key,
            size: slot.length(),
        })
    }
}

/// An index page: children with their first keys.
#[derive(Clone, Copy, Debug, PartialEq, Eq)]
pub struct IndexForm;

impl Form for IndexForm {
    ghost use Rattle.std.specs.Prelude.{false, ◌<◌};
    ghost use Rattle.spl_port.specs.Page.{IndexRow, index_row, index_row_length};
    ghost use Rattle.spl_page.specs.IndexPage.{index_entry_length};

    const KIND: u8 = INDEX_KIND;

    ghost KIND = { 73 };

    ghost LEAF = { false };

    ghost Entry = { IndexRow };

    ghost entry = { index_row };

    ghost entry_length = { index_row_length };

    ghost entry_key = { λ row. row.key };

    ghost size = { λ row. index_entry_length row.key };

    ghost IsAt = { λ page row. row.child < page };

    fn slot<'a>(page: u32, bytes: &'a [u8]) -> Option<Slot<'a>> {
        let slot = IndexSlot::read(bytes, page)?;
        Some(Slot {
            key: slot.key,
            size: slot.length(),
        })
    }
}
