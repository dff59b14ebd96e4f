ghost use Rattle.std.specs.Prelude.{◌≡◌, ◌<◌, Some, length};
ghost use Rattle.std.specs.List.{slice_get};
ghost use Rattle.std.specs.Map.{keys_of};
ghost use Rattle.std.specs.Option.{option_map};
ghost use Rattle.spl_message.specs.Entries.{message_in};
ghost use Rattle.spl_page.specs.Lent.{entry_lent, message_lent};
ghost use Rattle.spl_page.specs.Slots.{leaf_slot_row};
ghost use Rattle.spl_page.specs.Sound.{count_below};
ghost use Rattle.spl_page.specs.Tables.{leaf_table, table_entry};

use crate::leaf_slot::LeafSlot;
use crate::{LeafForm, LentEntry, LentMessage, SoundPage};
use spl_message::Key;

impl SoundPage<LeafForm> {
    /// How many keys there are.
    pub fn len(&self) -> usize
        ensures { result ≡ length (leaf_table self.now.bytes) }
    {
        self.count()
    }

    /// How many entries at the front have keys below this one: the place of the first entry that is not below it.
    pub fn seek(&self, key: &Key) -> usize
        ensures { result ≡ count_below (keys_of (leaf_table self.now.bytes)) key.now }
    {
        self.rank(key.bytes())
    }

    /// The entry at this place, if there is one. Nothing is copied.
    pub fn entry(&self, place: usize) -> Option<LentEntry<'_>>
        ensures { option_map entry_lent result ≡ slice_get (leaf_table self.now.bytes) place }
    {
        if place >= self.count() {
            return None;
        }
        let slot = self.slot_at(place);
        let message = slot.message();
        Some(LentEntry {
            key: slot.key,
            message,
        })
    }

    /// The message of the key, if it has one. Nothing is copied.
    pub fn find(&self, key: &Key) -> Option<LentMessage<'_>>
        ensures { option_map message_lent result ≡ message_in (leaf_table self.now.bytes) key.now }
    {
        let bytes = key.bytes();
        let place = self.rank(bytes);
        if place >= self.count() {
            return None;
        }
        let slot = self.slot_at(place);
        if bytes == slot.key {
            return Some(slot.message());
        }
        None
    }

    fn slot_at(&self, place: usize) -> LeafSlot<'_>
        requires { place < length (leaf_table self.now.bytes) }
        ensures { slice_get (leaf_table self.now.bytes) place ≡ Some (table_entry (leaf_slot_row result)) }
    {
        match LeafSlot::read(self.entry_bytes(place)) {
            Some(slot) => slot,
            None => unreachable!(),
        }
    }
}
