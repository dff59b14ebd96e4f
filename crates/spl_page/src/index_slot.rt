ghost use Rattle.std.specs.Prelude.{◌≡◌, ◌<◌, ◌≤◌, length};
ghost use Rattle.spl_page.specs.IndexPage.{index_head};

use byteorder::{BigEndian, ByteOrder};
use spl_message::KEY_LIMIT;

/// How many bytes of an entry come before its key.
pub(crate) const ENTRY_HEAD: usize = 5;

/// An entry of an index page, as a view into the page's bytes.
#[derive(Clone, Copy)]
pub(crate) struct IndexSlot<'a> {
    /// The number of the child's page in the branch.
    pub(crate) child: u32,
    /// The first key under the child.
    pub(crate) key: &'a [u8],
    ghost is_key: { (0 < length key.now) × (length key.now ≤ 64) },
}

impl<'a> IndexSlot<'a> {
    ghost use Rattle.std.specs.Prelude.{IfSome};
    ghost use Rattle.std.specs.Option.{option_map};
    ghost use Rattle.spl_port.specs.Page.{index_row, index_row_length};
    ghost use Rattle.spl_page.specs.Slots.{index_slot_length, index_slot_row};

    /// The entry at the front of these bytes of a page with this number, if there is one.
    pub(crate) fn read(bytes: &'a [u8], page: u32) -> Option<IndexSlot<'a>>
        ensures value { option_map index_slot_row result ≡ index_row page bytes.now }
        ensures length { IfSome result (λ slot. index_row_length bytes.now ≡ index_slot_length slot) }
        ensures within { IfSome result (λ slot. index_slot_length slot ≤ length bytes.now) }
    {
        if bytes.len() < ENTRY_HEAD {
            return None;
        }
        let child = BigEndian::read_u32(bytes);
        let end = ENTRY_HEAD + bytes[4] as usize;
        if child >= page || bytes.len() < end {
            return None;
        }
        let key = &bytes[ENTRY_HEAD..end];
        if key.is_empty() || key.len() > KEY_LIMIT {
            return None;
        }
        Some(IndexSlot { child, key })
    }

    /// How many bytes it takes.
    pub(crate) fn length(&self) -> usize
        ensures { result ≡ index_slot_length self.now }
    {
        ENTRY_HEAD + self.key.len()
    }
}

/// The bytes of an entry before its key.
pub(crate) fn entry_head(child: u32, key: &[u8]) -> [u8; ENTRY_HEAD]
    requires { length key.now ≤ 64 }
    ensures { result ≡ index_head child (length key.now) }
{
    let mut head = [0; ENTRY_HEAD];
    BigEndian::write_u32(&mut head, child);
    head[4] = key.len() as u8;
    head
}
