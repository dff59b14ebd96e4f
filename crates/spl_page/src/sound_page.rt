ghost use Rattle.std.specs.Prelude.{◌≡◌, ◌<◌, ◌≤◌, length, map, drop, Some, None, IsSome, IfOk, IfErr, OnOk};
ghost use Rattle.std.specs.List.{slice_get};
ghost use Rattle.std.specs.Option.{option_map};
ghost use Rattle.spl_message.specs.Key.{AreRising};
ghost use Rattle.spl_port.specs.Page.{kind_fault};
ghost use Rattle.spl_page.specs.PageFault.{IsFormFault};
ghost use Rattle.spl_page.specs.Sound.{count_below, entries_of, page_rows};

use crate::frame::entry_count;
use crate::scan::{ENTRY_LIMIT, form_fault};
use crate::{Form, PageFault, Slot};
use spl_port::{At, Damaged, PAGE_BYTES, PageBytes};
use std::alloc::Global;
use std::marker::{Model, PhantomData};

/// A page that was checked, so that a binary search finds its entries. In a clause it is its place and its bytes.
#[derive(Debug, Drop)]
pub struct SoundPage<F: Form> {
    at: At,
    bytes: PageBytes,
    /// Where each entry starts.
    starts: Vec<u16>,
    form: PhantomData<F>,
}

impl<F: Form> Model for SoundPage<F> {
    ghost use Rattle.std.specs.Prelude.{◌≡◌};
    ghost use Rattle.spl_port.specs.Counts.{Shown};
    ghost use Rattle.spl_page.specs.Sound.{IsChecked};

    ghost Value = { Shown };

    ghost view = { λ p. record { at = p.at; bytes = p.bytes } };

    ghost invariant = { λ p.
        (p.at.leaf ≡ F.LEAF)
        × IsChecked F.KIND (F.entry p.at.page) F.entry_length F.entry_key p.at p.bytes p.starts.items };
}

impl<F: Form> SoundPage<F> {
    /// The page with these bytes, if they are the page of the place, of this kind.
    pub(crate) fn check(alloc: Global, bytes: PageBytes, at: At) -> Result<SoundPage<F>, PageFault>
        requires { at.leaf ≡ F.LEAF }
        ensures ok { IfOk result (λ page. page ≡ record { at = at; bytes = bytes }) }
        ensures sound { OnOk result (kind_fault F.KIND F.entry_key (page_rows (F.entry at.page) F.entry_length bytes) at bytes ≡ None) }
        ensures err { IfErr result (IsFormFault at (kind_fault F.KIND F.entry_key (page_rows (F.entry at.page) F.entry_length bytes) at bytes)) }
    {
        let text = bytes.bytes();
        let mut starts = [0; ENTRY_LIMIT];
        if let Some(why) = form_fault::<F>(text, at, &mut starts) {
            return Err(PageFault::Damaged(Damaged { at, why }));
        }
        let count = entry_count(text) as usize;
        let starts = Vec::from_slice(alloc, &starts[..count])?;
        let form = PhantomData;
        Ok(SoundPage {
            at,
            bytes,
            starts,
            form,
        })
    }

    pub(crate) fn at(&self) -> At
        ensures value { result ≡ self.now.at }
        ensures kind { self.now.at.leaf ≡ F.LEAF }
        ensures sound { kind_fault F.KIND F.entry_key (page_rows (F.entry self.now.at.page) F.entry_length self.now.bytes) self.now.at self.now.bytes ≡ None }
    {
        self.at
    }

    pub(crate) fn bytes(&self) -> &[u8; PAGE_BYTES]
        ensures { result.now ≡ self.now.bytes }
    {
        self.bytes.bytes()
    }

    /// How many entries there are. Their keys rise.
    pub(crate) fn count(&self) -> usize
        ensures number { result ≡ length (entries_of (F.entry self.now.at.page) F.entry_length self.now.bytes) }
        ensures rising { AreRising (map F.entry_key (entries_of (F.entry self.now.at.page) F.entry_length self.now.bytes)) }
    {
        self.starts.len()
    }

    /// The bytes from an entry on.
    pub(crate) fn entry_bytes(&self, index: usize) -> &[u8]
        requires { index < length (entries_of (F.entry self.now.at.page) F.entry_length self.now.bytes) }
        ensures { slice_get (entries_of (F.entry self.now.at.page) F.entry_length self.now.bytes) index ≡ F.entry self.now.at.page result.now }
    {
        let start = self.starts[index];
        bytes_from(self.bytes.bytes(), start)
    }

    /// The key of an entry.
    fn key_at(&self, index: usize) -> &[u8]
        requires { index < length (entries_of (F.entry self.now.at.page) F.entry_length self.now.bytes) }
        ensures { slice_get (map F.entry_key (entries_of (F.entry self.now.at.page) F.entry_length self.now.bytes)) index ≡ Some result.now }
    {
        let bytes = self.entry_bytes(index);
        match F::slot(self.at.page, bytes) {
            Some(slot) => slot.key,
            None => unreachable!(),
        }
    }

    /// How many entries at the front have keys below this one.
    pub(crate) fn rank(&self, key: &[u8]) -> usize
        ensures place { result ≡ count_below (map F.entry_key (entries_of (F.entry self.now.at.page) F.entry_length self.now.bytes)) key.now }
        ensures within { result ≤ length (entries_of (F.entry self.now.at.page) F.entry_length self.now.bytes) }
    {
        let mut low = 0;
        let mut high = self.count();
        while low < high {
            let middle = low + (high - low) / 2;
            if self.key_at(middle).cmp(&key).is_lt() {
                low = middle + 1;
            } else {
                high = middle;
            }
        }
        low
    }
}

/// The bytes from a place on.
pub(crate) fn bytes_from(bytes: &[u8; PAGE_BYTES], start: u16) -> &[u8]
    requires { start < 4096 }
    ensures { result.now ≡ drop start bytes.now }
{
    &bytes[start as usize..]
}
