ghost use Rattle.std.specs.Prelude.{◌≡◌, ◌<◌, Some, length, IfSome};
ghost use Rattle.std.specs.List.{slice_get};
ghost use Rattle.spl_page.specs.Sound.{child_at};
ghost use Rattle.spl_page.specs.Tables.{child_for, children};

use crate::index_slot::IndexSlot;
use crate::{IndexForm, SoundPage};
use spl_message::{Bound, Key};

impl SoundPage<IndexForm> {
    /// The child under which the key belongs. There is none if the key is below the first keys of all children.
    pub fn child(&self, key: &Key) -> Option<u32>
        ensures child { result ≡ child_for (children self.now.at.page self.now.bytes) key.now }
        ensures below { IfSome result (λ child. child < self.now.at.page) }
    {
        let place = self.rank(Bound::after(key).bytes());
        if place == 0 {
            return None;
        }
        Some(self.child_at(place - 1))
    }

    fn child_at(&self, place: usize) -> u32
        requires { place < length (children self.now.at.page self.now.bytes) }
        ensures child { child_at (children self.now.at.page self.now.bytes) place ≡ Some result }
        ensures below { result < self.now.at.page }
    {
        let page = self.at().page;
        match IndexSlot::read(self.entry_bytes(place), page) {
            Some(slot) => slot.child,
            None => unreachable!(),
        }
    }
}
