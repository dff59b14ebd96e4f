ghost use Rattle.std.specs.Prelude.{◌≡◌, ℕ, ◌+◌, ◌*◌, ◌<◌, ◌≤◌, ◌^◌, ◌↔◌, ◌++◌, [], ◌∷◌, true, length, map, Some, IsTrue, IfOk, OnOk, OnErr};
ghost use Rattle.std.specs.List.{slice_get};
ghost use Rattle.std.specs.Option.{option_map};
ghost use Rattle.spl_branch.specs.Pages.{AreParts, AreTold, page_total};
ghost use Rattle.spl_port.specs.Port.{HasCause, MovesNone, WritesOne};
ghost use Rattle.spl_port.specs.Seal.{empty_draft};
ghost use Rattle.spl_build.specs.Written.{Appends, IsFull, IsPages, Opens, begun_part, next_place};

use spl_message::NoMemory;
use spl_port::{At, EXTENT_PAGES, PageBytes, Port, PortFault, Seal};
use std::alloc::Global;
use std::marker::Model;
use std::mem;

/// How many extents a branch has at most.
const MOST_EXTENTS: usize = 65_536;

const _: () = prove!(MOST_EXTENTS == 65_536);

/// The pages of a branch while they are written.
#[derive(Drop)]
pub(crate) struct Pages<P: Port> {
    front: Front<P>,
    /// The current extent, once there is one.
    begun: Option<Begun<P>>,
}

/// The extents that are full, and those that come next.
#[derive(Drop)]
struct Front<P: Port> {
    number: u64,
    extents: Vec<u32>,
    seals: Vec<P::Seal>,
}

/// An extent that is written.
#[derive(Drop)]
struct Begun<P: Port> {
    draft: P::Draft,
    /// How many pages it has.
    pages: u32,
}

/// What the pages become when all are written.
#[derive(Drop)]
pub(crate) struct Closed<P: Port> {
    pub(crate) extents: Vec<u32>,
    pub(crate) seals: Vec<P::Seal>,
}

impl<P: Port> Model for Pages<P> {
    ghost use Rattle.std.specs.Prelude.{◌++◌, map};
    ghost use Rattle.std.specs.Option.{option_map};
    ghost use Rattle.spl_build.specs.Written.{IsPages, Written, begun_part};

    ghost Value = { Written };

    ghost view = { λ p. record {
      number = p.front.number;
      extents = p.front.extents.items;
      parts = map P.Seal.means p.front.seals.items ++ begun_part (option_map (λ b. (P.drafts b.draft, b.pages)) p.begun);
    } };

    ghost invariant = { λ p. IsPages P.Seal.TELLS p.front.number p.front.extents.items
        (map P.Seal.means p.front.seals.items) (option_map (λ b. (P.drafts b.draft, b.pages)) p.begun) };
}

impl<P: Port> Pages<P> {
    /// No pages. It takes no memory.
    pub(crate) fn new(alloc: Global, number: u64) -> Pages<P>
        ensures { result ≡ record { number = number; extents = []; parts = [] } }
    {
        Pages {
            front: Front {
                number,
                extents: Vec::new(alloc),
                seals: Vec::new(alloc),
            },
            begun: None,
        }
    }

    pub(crate) fn number(&self) -> u64
        ensures { result ≡ self.now.number }
    {
        self.front.number
    }

    /// How many pages there are.
    pub(crate) fn count(&self) -> u32
        ensures value { result ≡ page_total self.now.parts }
        ensures most { result ≤ 32 * length self.now.extents }
        ensures extents { length self.now.extents ≤ 65536 }
    {
        let full = self.front.seals.len() as u32 * EXTENT_PAGES;
        match &self.begun {
            Some(begun) => full + begun.pages,
            None => full,
        }
    }

    /// Whether the next page has no extent.
    pub(crate) fn is_full(&self) -> bool
        ensures value { IsTrue result ↔ IsFull self.now.extents self.now.parts }
        ensures sound { AreParts self.now.number self.now.extents self.now.parts }
        ensures most { page_total self.now.parts ≤ 32 * length self.now.extents }
        ensures extents { length self.now.extents ≤ 65536 }
    {
        self.count() as usize == self.front.extents.len() * EXTENT_PAGES as usize
    }

    /// Whether it has as many extents as a branch can have.
    pub(crate) fn has_most_extents(&self) -> bool
        ensures { IsTrue result ↔ (65536 ≤ length self.now.extents) }
    {
        self.front.extents.len() >= MOST_EXTENTS
    }

    /// Takes one more extent.
    pub(crate) fn give(&mut self, extent: u32) -> Result<(), NoMemory>
        requires { length self.old.extents < 65536 }
        ensures ok { OnOk result (self.new ≡ record self.old { extents = self.old.extents ++ extent ∷ [] }) }
        ensures err { OnErr result (self.new ≡ self.old) }
    {
        self.front.extents.push(extent)?;
        Ok(())
    }

    /// The place of the next page.
    pub(crate) fn next(&self, leaf: bool) -> At
        requires { page_total self.now.parts < 32 * length self.now.extents }
        ensures place { result ≡ next_place self.now leaf }
        ensures extents { length self.now.extents ≤ 65536 }
    {
        let page = self.count();
        At {
            extent: self.front.extents[(page / EXTENT_PAGES) as usize],
            branch: self.front.number,
            page,
            leaf,
        }
    }

    /// Writes one more page.
    pub(crate) fn append(&mut self, port: &mut P, page: &PageBytes) -> Result<(), PortFault>
        requires { page_total self.old.parts < 32 * length self.old.extents }
        ensures ok { OnOk result (Appends P.Seal.TELLS self.old self.new page.now) }
        ensures sound { OnOk result (AreParts self.new.number self.new.extents self.new.parts) }
        ensures counts { WritesOne (P.counts port.old) (P.counts port.new) }
        ensures ok_count { OnOk result ((P.counts port.new).writes ≡ (P.counts port.old).writes + 1) }
        ensures ok_faults { OnOk result ((P.counts port.new).faults ≡ (P.counts port.old).faults) }
        ensures cause { HasCause (P.counts port.old) (P.counts port.new) result }
    {
        let mut begun = self.front.open(port, self.begun.take())?;
        port.append(&mut begun.draft, page.bytes())?;
        begun.pages += 1;
        self.begun = Some(begun);
        Ok(())
    }

    /// Seals what is written, and returns it.
    pub(crate) fn close(&mut self, port: &mut P) -> Result<Closed<P>, PortFault>
        ensures extents { IfOk result (λ closed. closed.extents.items ≡ self.old.extents) }
        ensures parts { IfOk result (λ closed. map P.Seal.means closed.seals.items ≡ self.old.parts) }
        ensures sound { AreParts self.old.number self.old.extents self.old.parts }
        ensures most { length self.old.extents ≤ 65536 }
        ensures counts { MovesNone (P.counts port.old) (P.counts port.new) }
        ensures ok_faults { OnOk result ((P.counts port.new).faults ≡ (P.counts port.old).faults) }
        ensures cause { HasCause (P.counts port.old) (P.counts port.new) result }
    {
        let alloc = *self.front.extents.allocator();
        let extents = mem::replace(&mut self.front.extents, Vec::new(alloc));
        let mut seals = mem::replace(&mut self.front.seals, Vec::new(alloc));
        if let Some(begun) = self.begun.take() {
            seals.push(port.seal(begun.draft)?)?;
        }
        Ok(Closed { extents, seals })
    }
}

impl<P: Port> Front<P> {
    /// The extent that the next page goes to: the one that is written, or the next one where there is none or it is
    /// full.
    fn open(&mut self, port: &mut P, begun: Option<Begun<P>>) -> Result<Begun<P>, PortFault>
        requires sound { IsPages P.Seal.TELLS self.old.number self.old.extents.items (map P.Seal.means self.old.seals.items)
            (option_map (λ b. (P.drafts b.draft, b.pages)) begun) }
        requires room { page_total (map P.Seal.means self.old.seals.items ++ begun_part (option_map (λ b. (P.drafts b.draft, b.pages)) begun))
            < 32 * length self.old.extents.items }
        ensures number { self.new.number ≡ self.old.number }
        ensures extents { self.new.extents.items ≡ self.old.extents.items }
        ensures ok { IfOk result (λ next. Opens P.Seal.TELLS self.old.number self.old.extents.items
            (map P.Seal.means self.old.seals.items ++ begun_part (option_map (λ b. (P.drafts b.draft, b.pages)) begun))
            (map P.Seal.means self.new.seals.items) (P.drafts next.draft) next.pages) }
        ensures err { OnErr result (self.new.seals.items ≡ self.old.seals.items) }
        ensures counts { MovesNone (P.counts port.old) (P.counts port.new) }
        ensures ok_faults { OnOk result ((P.counts port.new).faults ≡ (P.counts port.old).faults) }
        ensures cause { HasCause (P.counts port.old) (P.counts port.new) result }
    {
        match begun {
            Some(begun) if begun.pages < EXTENT_PAGES => return Ok(begun),
            Some(begun) => {
                let seal = port.seal(begun.draft)?;
                self.seals.push(seal)?;
                Ok(self.begin(port))
            }
            None => Ok(self.begin(port)),
        }
    }

    /// Begins the next extent.
    fn begin(&self, port: &mut P) -> Begun<P>
        requires room { length self.now.seals.items < length self.now.extents.items }
        requires most { length self.now.extents.items ≤ 65536 }
        ensures begun { (extent : ℕ) → slice_get self.now.extents.items (length self.now.seals.items) ≡ Some extent
            → P.drafts result.draft ≡ empty_draft P.Seal.TELLS extent self.now.number (32 * length self.now.seals.items) }
        ensures pages { result.pages ≡ 0 }
        ensures counts { P.counts port.new ≡ P.counts port.old }
    {
        let place = self.seals.len();
        let first = place as u32 * EXTENT_PAGES;
        Begun {
            draft: port.begin(self.extents[place], self.number, first),
            pages: 0,
        }
    }
}
