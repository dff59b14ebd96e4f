//! Pages of both kinds, each checked for the place that it was asked for.
ghost use Rattle.std.specs.Prelude.{◌≡◌, ◌↔◌, None, IsTrue, IfOk, IfErr, OnOk};
ghost use Rattle.spl_port.specs.Page.{page_fault};
ghost use Rattle.spl_page.specs.AnyPage.{is_leaf, shown_of};
ghost use Rattle.spl_page.specs.PageFault.{IsFaultOf};

use crate::scan::{ENTRY_LIMIT, form_fault};
use crate::{IndexForm, LeafForm, PageFault, SoundPage};
use spl_port::{At, PAGE_BYTES, PageBytes, Why};
use std::alloc::Global;

/// A page that was checked.
#[derive(Debug, Drop)]
pub enum AnyPage {
    Leaf(SoundPage<LeafForm>),
    Index(SoundPage<IndexForm>),
}

impl AnyPage {
    /// The page with these bytes, if they are the page of the place. Other bytes are always refused as damaged.
    pub fn check(alloc: Global, bytes: PageBytes, at: At) -> Result<AnyPage, PageFault>
        ensures ok { IfOk result (λ page. shown_of page ≡ record { at = at; bytes = bytes }) }
        ensures sound { OnOk result (page_fault at bytes ≡ None) }
        ensures err { IfErr result (IsFaultOf at bytes) }
    {
        if at.leaf {
            Ok(AnyPage::Leaf(SoundPage::check(alloc, bytes, at)?))
        } else {
            Ok(AnyPage::Index(SoundPage::check(alloc, bytes, at)?))
        }
    }

    /// Its place.
    pub fn at(&self) -> At
        ensures value { result ≡ (shown_of self.now).at }
        ensures kind { (shown_of self.now).at.leaf ≡ is_leaf self.now }
        ensures sound { page_fault (shown_of self.now).at (shown_of self.now).bytes ≡ None }
    {
        match self {
            AnyPage::Leaf(page) => page.at(),
            AnyPage::Index(page) => page.at(),
        }
    }

    /// Its bytes.
    pub fn bytes(&self) -> &[u8; PAGE_BYTES]
        ensures { result.now ≡ (shown_of self.now).bytes }
    {
        match self {
            AnyPage::Leaf(page) => page.bytes(),
            AnyPage::Index(page) => page.bytes(),
        }
    }
}

/// Whether the bytes are the page of the place. It takes no memory.
pub fn page_ok(bytes: &[u8; PAGE_BYTES], at: At) -> bool
    ensures { IsTrue result ↔ (page_fault at bytes.now ≡ None) }
{
    fault_of(bytes, at).is_none()
}

/// The first reason why the bytes are not the page of the place.
pub(crate) fn fault_of(bytes: &[u8; PAGE_BYTES], at: At) -> Option<Why>
    ensures { result ≡ page_fault at bytes.now }
{
    let mut starts = [0; ENTRY_LIMIT];
    if at.leaf {
        form_fault::<LeafForm>(bytes, at, &mut starts)
    } else {
        form_fault::<IndexForm>(bytes, at, &mut starts)
    }
}
