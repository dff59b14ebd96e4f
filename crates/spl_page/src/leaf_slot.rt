ghost use Rattle.std.specs.Prelude.{◌≡◌, ◌<◌, ◌≤◌, true, length};
ghost use Rattle.spl_port.specs.Page.{number_at};
ghost use Rattle.spl_page.specs.LeafPage.{is_message, leaf_head};

use crate::{LentMessage, LentValue};
use byteorder::{BigEndian, ByteOrder};
use spl_message::{KEY_LIMIT, VALUE_LIMIT};

/// How many bytes of an entry come before its key.
pub(crate) const ENTRY_HEAD: usize = 4;

/// An entry of a leaf page, as a view into the page's bytes.
#[derive(Clone, Copy)]
pub(crate) struct LeafSlot<'a> {
    pub(crate) key: &'a [u8],
    /// 0 for an insert, 1 for a delete and 2 for an update.
    pub(crate) kind: u8,
    pub(crate) value: &'a [u8],
    ghost is_key: { (0 < length key.now) × (length key.now ≤ 64) },
    ghost is_message: { is_message kind (length value.now) ≡ true },
}

impl<'a> LeafSlot<'a> {
    ghost use Rattle.std.specs.Prelude.{IfSome};
    ghost use Rattle.std.specs.Option.{option_map};
    ghost use Rattle.spl_port.specs.Page.{leaf_row, leaf_row_length};
    ghost use Rattle.spl_page.specs.Lent.{message_lent};
    ghost use Rattle.spl_page.specs.Slots.{leaf_slot_length, leaf_slot_row, slot_message};

    /// The entry at the front of these bytes, if there is one.
    pub(crate) fn read(bytes: &'a [u8]) -> Option<LeafSlot<'a>>
        ensures value { option_map leaf_slot_row result ≡ leaf_row bytes.now }
        ensures length { IfSome result (λ slot. leaf_row_length bytes.now ≡ leaf_slot_length slot) }
        ensures within { IfSome result (λ slot. leaf_slot_length slot ≤ length bytes.now) }
    {
        if bytes.len() < ENTRY_HEAD {
            return None;
        }
        let kind = bytes[1];
        let middle = ENTRY_HEAD + bytes[0] as usize;
        let end = middle + value_length(bytes) as usize;
        if bytes.len() < end {
            return None;
        }
        let key = &bytes[ENTRY_HEAD..middle];
        let value = &bytes[middle..end];
        if key.is_empty() || key.len() > KEY_LIMIT || !is_message(kind, value.len()) {
            return None;
        }
        Some(LeafSlot { key, kind, value })
    }

    /// How many bytes it takes.
    pub(crate) fn length(&self) -> usize
        ensures { result ≡ leaf_slot_length self.now }
    {
        ENTRY_HEAD + self.key.len() + self.value.len()
    }

    /// Its message, borrowed.
    pub(crate) fn message(&self) -> LentMessage<'a>
        ensures { message_lent result ≡ slot_message self.now }
    {
        match self.kind {
            0 => LentMessage::Insert(LentValue::of(self.value)),
            1 => LentMessage::Delete,
            _ => LentMessage::Update(LentValue::of(self.value)),
        }
    }
}

/// The bytes of an entry before its key.
pub(crate) fn entry_head(key: &[u8], kind: u8, value: &[u8]) -> [u8; ENTRY_HEAD]
    requires key { length key.now ≤ 64 }
    requires value { length value.now ≤ 512 }
    ensures { result ≡ leaf_head (length key.now) kind (length value.now) }
{
    let mut head = [0; ENTRY_HEAD];
    head[0] = key.len() as u8;
    head[1] = kind;
    BigEndian::write_u16(&mut head[2..], value.len() as u16);
    head
}

/// How many bytes the value of the entry at the front has.
fn value_length(bytes: &[u8]) -> u16
    requires { 4 ≤ length bytes.now }
    ensures { result ≡ number_at 2 2 bytes.now }
{
    BigEndian::read_u16(&bytes[2..])
}

/// Whether there are messages of this kind whose value has so many bytes.
fn is_message(kind: u8, len: usize) -> bool
    ensures { result ≡ is_message kind len }
{
    match kind {
        0 | 2 => len <= VALUE_LIMIT,
        1 => len == 0,
        _ => false,
    }
}
