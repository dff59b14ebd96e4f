ghost use Rattle.std.specs.Prelude.{◌≡◌, ◌+◌, ◌<◌, ◌≤◌, true, false, None, Some, [], IfOk, IfErr, IfSome, OnOk, OnErr};
ghost use Rattle.spl_port.specs.Port.{ReadsOne};
ghost use Rattle.spl_branch.specs.Reading.{HasBranchCause, OnlyReads};
ghost use Rattle.spl_branch.specs.Branch.{entries_in};
ghost use Rattle.spl_branch.specs.Pages.{page_total};
ghost use Rattle.spl_scan.specs.Scan.{Gives, GoesOn, IsAhead, Looks, SamePlace, left_of, pages_from, unread};
ghost use Rattle.spl_scan.specs.Search.{is_next, over, search};

use crate::met::{Met, next_in};
use spl_branch::{Branch, BranchFault};
use spl_message::{Content, Key, Message, NoMemory, Span};
use spl_page::AnyPage;
use spl_pager::Pager;
use spl_port::{Port, Seal};
use std::alloc::Global;
use std::marker::Model;
use std::sync::Arc;

/// The entries of a branch that lie in a span, one after the other. Clauses see what is still to come (`left_of`) and
/// how many pages it may still read (`unread`).
#[derive(Drop)]
pub struct Scan<S: Seal> {
    alloc: Global,
    branch: Arc<Branch<S>>,
    span: Span,
    /// The key that was given last.
    last: Option<Key>,
    /// Whether it is known where the span begins.
    begun: bool,
    /// The number of the leaf page that is read next.
    pages: u32,
    /// The current leaf page, and a place in it.
    page: Option<Arc<AnyPage>>,
    place: usize,
}

impl<S: Seal> Model for Scan<S> {
    ghost use Rattle.spl_scan.specs.Scan.{Scan as Shown, IsOnLeaf, Stands, rest_of};

    ghost Value = { Shown };

    ghost view = { λ s. record {
      branch = s.branch.value;
      span = s.span;
      last = s.last;
      begun = s.begun;
      pages = s.pages;
      here = rest_of s.page s.place;
    } };

    ghost invariant = { λ s. IsOnLeaf s.page × Stands S.TELLS (record {
      branch = s.branch.value;
      span = s.span;
      last = s.last;
      begun = s.begun;
      pages = s.pages;
      here = rest_of s.page s.place;
    }) };
}

impl<S: Seal> Scan<S> {
    /// A scan of the span, which owns its share of the branch. Takes no memory.
    pub fn new(alloc: Global, branch: Arc<Branch<S>>, span: &Span) -> Scan<S>
        ensures { result ≡ record {
          branch = branch.value;
          span = span.now;
          last = None;
          begun = false;
          pages = 0;
          here = [];
        } }
    {
        Scan {
            alloc,
            branch,
            span: *span,
            last: None,
            begun: false,
            pages: 0,
            page: None,
            place: 0,
        }
    }

    /// The next entry of the span, or `None` at the end. After an error the scan is where it was before the call. All
    /// calls together read each leaf page at most once, beside the pages on the way to the first one.
    pub fn next<P: Port<Seal = S>, G: Pager>(
        &mut self,
        port: &mut P,
        pager: &G,
    ) -> Result<Option<(Key, Message)>, BranchFault>
        ensures told { S.TELLS ≡ true → IfOk result (λ given. Gives self.old given self.new) }

        // On every device.
        ensures rises { IfOk result (λ given. IfSome given (λ entry.
            is_next self.old.span self.old.last entry.0 ≡ true)) }
        ensures ok { IfOk result (λ given. GoesOn self.old given self.new) }
        ensures err { OnErr result (SamePlace self.old self.new) }
        ensures once { OnOk result (
            (P.counts port.new).reads + unread self.new ≤ (P.counts port.old).reads + unread self.old) }
        ensures most { (P.counts port.new).reads ≤ (P.counts port.old).reads + unread self.old }
        ensures counts { OnlyReads (P.counts port.old) (P.counts port.new) }
        ensures faults { OnOk result ((P.counts port.new).faults ≡ (P.counts port.old).faults) }
        ensures cause { IfErr result (HasBranchCause self.old.branch (P.counts port.old) (P.counts port.new)) }
    {
        self.begin(port, pager)?;
        loop {
            match self.look()? {
                Met::Entry(key, message, _) => return Ok(Some((key, message))),
                Met::Past => return Ok(None),
                Met::Over => {}
            }
            if !self.turn(port, pager)? {
                return Ok(None);
            }
        }
    }

    /// Finds the first leaf page that has an entry of the span.
    fn begin<P: Port<Seal = S>, G: Pager>(
        &mut self,
        port: &mut P,
        pager: &G,
    ) -> Result<(), BranchFault>
        ensures begun { OnOk result (self.new.begun ≡ true) }
        ensures place { SamePlace self.old self.new }
        ensures once { OnOk result (
            (P.counts port.new).reads + unread self.new ≤ (P.counts port.old).reads + unread self.old) }
        ensures most { (P.counts port.new).reads ≤ (P.counts port.old).reads + unread self.old }
        ensures counts { OnlyReads (P.counts port.old) (P.counts port.new) }
        ensures faults { OnOk result ((P.counts port.new).faults ≡ (P.counts port.old).faults) }
        ensures cause { IfErr result (HasBranchCause self.old.branch (P.counts port.old) (P.counts port.new)) }
    {
        if self.begun {
            return Ok(());
        }
        self.pages = self.start(port, pager)?;
        self.begun = true;
        Ok(())
    }

    /// The number of the first leaf page that has an entry of the span.
    fn start<P: Port<Seal = S>, G: Pager>(
        &self,
        port: &mut P,
        pager: &G,
    ) -> Result<u32, BranchFault>
        ensures within { IfOk result (λ number. number ≤ self.now.branch.leaves) }
        ensures told { S.TELLS ≡ true → IfOk result (λ number.
            IsAhead self.now.span self.now.last (entries_in self.now.branch) (pages_from self.now.branch number)) }
        ensures most { (P.counts port.new).reads ≤ (P.counts port.old).reads + page_total self.now.branch.parts }
        ensures counts { OnlyReads (P.counts port.old) (P.counts port.new) }
        ensures faults { OnOk result ((P.counts port.new).faults ≡ (P.counts port.old).faults) }
        ensures cause { IfErr result (HasBranchCause self.now.branch (P.counts port.old) (P.counts port.new)) }
    {
        // Where pages are told, the entries of the leaf pages are in the order of their keys.
        let _leaves = self.branch.leaves();
        let _entries = self.branch.entries();
        match &self.span.from {
            Some(from) => self.branch.seek(port, pager, from),
            None => Ok(0),
        }
    }

    /// Takes the next entry of the current page.
    fn look(&mut self) -> Result<Met, NoMemory>
        requires { self.old.begun ≡ true }
        ensures looks { IfOk result (λ met. Looks S.TELLS self.old met self.new) }
        ensures err { OnErr result (self.new ≡ self.old) }
    {
        let Some(page) = &self.page else {
            return Ok(Met::Over);
        };
        match next_in(self.alloc, page, self.place, &self.span, &self.last)? {
            Met::Entry(key, message, next) => {
                self.last = Some(key);
                self.place = next;
                Ok(Met::Entry(key, message, next))
            }
            Met::Past => Ok(Met::Past),
            Met::Over => Ok(Met::Over),
        }
    }

    /// Reads the next leaf page, if there is one.
    fn turn<P: Port<Seal = S>, G: Pager>(
        &mut self,
        port: &mut P,
        pager: &G,
    ) -> Result<bool, BranchFault>
        requires begun { self.old.begun ≡ true }
        requires over { search self.old.span self.old.last self.old.here ≡ over }
        ensures turned { result ≡ Ok true →
            self.new ≡ record self.old { pages = self.old.pages + 1; here = self.new.here } }
        ensures less { result ≡ Ok true → unread self.new < unread self.old }
        ensures same { result ≡ Ok false → self.new ≡ self.old }
        ensures ended { S.TELLS ≡ true → result ≡ Ok false → left_of self.old ≡ [] }
        ensures err { OnErr result (self.new ≡ self.old) }
        ensures once { OnOk result (
            (P.counts port.new).reads + unread self.new ≤ (P.counts port.old).reads + unread self.old) }
        ensures most { (P.counts port.new).reads ≤ (P.counts port.old).reads + unread self.old }
        ensures counts { OnlyReads (P.counts port.old) (P.counts port.new) }
        ensures faults { OnOk result ((P.counts port.new).faults ≡ (P.counts port.old).faults) }
        ensures cause { IfErr result (HasBranchCause self.old.branch (P.counts port.old) (P.counts port.new)) }
    {
        if self.pages >= self.branch.leaves() {
            return Ok(false);
        }
        let page = self.branch.leaf(port, pager, self.pages)?;
        self.page = Some(page);
        self.place = 0;
        self.pages += 1;
        Ok(true)
    }
}
