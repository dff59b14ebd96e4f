//! `Bundles`: the queue in its slots.
//!
//! The bundle with number n lies in slot n % 24. So a bundle never moves: it is written once into its slot, and bundles
//! at the front are dropped by raising the first number. Nothing reads what a slot still holds of a dropped bundle; the
//! slot's next list overwrites it.
ghost use Rattle.std.specs.Prelude.{◌≡◌, ◌+◌, ◌-◌, ◌^◌, ◌<◌, ◌≤◌, ◌↔◌, min, [], length, IsTrue, IsOk, IfOk, OnOk, OnErr, Err};
ghost use Rattle.spl_bundle.specs.Numbered.{bundle_at, next_of, live, pushed, dropped_below, merged, marked, released, IsWithinLimits};

use crate::Limit;
use crate::slots::{Slot, copy_slots, empty_slots, fill, fill_joined, mark, release, slot_of};
use std::alloc::Global;
use std::marker::Model;

/// How many bundles a queue can have.
pub const MAX_LISTS: usize = 24;

/// How many branches a bundle can have.
pub const MAX_BRANCHES: usize = 32;

const _: () = prove!(MAX_LISTS == 24);

const _: () = prove!(MAX_BRANCHES == 32);

/// Numbered bundles, oldest first: lists of branch numbers, each with the actor that marked it, if any. In a
/// clause it is the first bundle's number and the bundles.
///
/// It takes about 6.5 KiB inline: keep it in a `Box` and pass references.
#[derive(Debug, Drop)]
pub struct Bundles {
    slots: [Slot; MAX_LISTS],
    first: u64,
    next: u64,
}

impl Model for Bundles {
    ghost use Rattle.spl_bundle.specs.Numbered.{Numbered};

    ghost Value = { Numbered };

    ghost use Rattle.spl_bundle.specs.Slots.{numbered, IsSound};

    ghost view = { numbered };

    ghost invariant = { IsSound };
}

impl Bundles {
    /// An empty queue. The next bundle gets the number `first`.
    pub fn new(alloc: Global, first: u64) -> Bundles
        ensures { result ≡ record { first = first; bundles = [] } }
    {
        Bundles {
            slots: empty_slots(alloc),
            first,
            next: first,
        }
    }

    /// A copy of the queue.
    pub fn copy(&self) -> Bundles
        ensures { result ≡ self.now }
    {
        Bundles {
            slots: copy_slots(&self.slots),
            first: self.first,
            next: self.next,
        }
    }

    /// The number of the oldest bundle, or of the next one if there is none.
    pub fn first(&self) -> u64
        ensures value { result ≡ self.now.first }
        ensures limits { IsWithinLimits self.now }
    {
        self.first
    }

    /// The number that the next bundle gets.
    pub fn next(&self) -> u64
        ensures value { result ≡ next_of self.now }
        ensures limits { IsWithinLimits self.now }
    {
        self.next
    }

    /// Whether the queue is full.
    pub fn is_full(&self) -> bool
        ensures full { IsTrue result ↔ (length self.now.bundles ≡ MAX_LISTS) }
        ensures limits { IsWithinLimits self.now }
    {
        self.next - self.first == MAX_LISTS as u64
    }

    /// The branches of the bundle with this number.
    pub fn list(&self, number: u64) -> &[u64]
        requires stands { self.now.first ≤ number }
        requires made { number < next_of self.now }
        ensures { result.now ≡ (bundle_at self.now number).branches }
    {
        self.slots[slot_of(number)].branches.as_slice()
    }

    /// The actor whose mark the bundle carries.
    pub fn owner(&self, number: u64) -> Option<u32>
        requires stands { self.now.first ≤ number }
        requires made { number < next_of self.now }
        ensures { result ≡ (bundle_at self.now number).owner }
    {
        self.slots[slot_of(number)].owner
    }

    /// How many branches the bundles from the mark on have together.
    pub fn live_len(&self, mark: u64) -> usize
        ensures { result ≡ length (live self.now mark) }
    {
        let mut count = 0;
        let from = self.first().max(mark);
        for number in from..self.next() {
            count += self.list(number).len();
        }
        count
    }

    /// Adds a copy of the list at the end, without a mark. Returns its number.
    pub fn push(&mut self, list: &[u64]) -> Result<u64, Limit>
        requires { next_of self.old < 2 ^ 63 }
        ensures number { IfOk result (λ number. number ≡ next_of self.old) }
        ensures ok { OnOk result (self.new ≡ pushed self.old list.now) }
        ensures accepted { IsOk result ↔ ((length self.old.bundles < MAX_LISTS) × (length list.now ≤ MAX_BRANCHES)) }

        // A full queue is reported first.
        ensures lists { length self.old.bundles ≡ MAX_LISTS → result ≡ Err (Limit.Lists MAX_LISTS) }
        ensures branches { length self.old.bundles < MAX_LISTS → MAX_BRANCHES < length list.now
            → result ≡ Err (Limit.Branches (min (length list.now) u32.MAX)) }
        ensures err { OnErr result (self.new ≡ self.old) }
    {
        self.admit(list.len())?;
        let number = self.next;
        fill(&mut self.slots, number, list);
        self.next = number + 1;
        Ok(number)
    }

    /// Adds the bundles of another queue from the mark on, joined to one, without a mark. Returns its number.
    pub fn push_from(&mut self, other: &Bundles, mark: u64) -> Result<u64, Limit>
        requires { next_of self.old < 2 ^ 63 }
        ensures number { IfOk result (λ number. number ≡ next_of self.old) }
        ensures ok { OnOk result (self.new ≡ pushed self.old (live other.now mark)) }
        ensures accepted { IsOk result ↔ ((length self.old.bundles < MAX_LISTS) × (length (live other.now mark) ≤ MAX_BRANCHES)) }

        // A full queue is reported first.
        ensures lists { length self.old.bundles ≡ MAX_LISTS → result ≡ Err (Limit.Lists MAX_LISTS) }
        ensures branches { length self.old.bundles < MAX_LISTS → MAX_BRANCHES < length (live other.now mark)
            → result ≡ Err (Limit.Branches (min (length (live other.now mark)) u32.MAX)) }
        ensures err { OnErr result (self.new ≡ self.old) }
    {
        self.admit(other.live_len(mark))?;
        let number = self.next;
        fill_joined(&mut self.slots, number, other, mark);
        self.next = number + 1;
        Ok(number)
    }

    /// Whether a list of so many branches fits, or why not.
    fn admit(&self, branches: usize) -> Result<(), Limit>
        ensures accepted { IsOk result ↔ ((length self.now.bundles < MAX_LISTS) × (branches ≤ MAX_BRANCHES)) }
        ensures lists { length self.now.bundles ≡ MAX_LISTS → result ≡ Err (Limit.Lists MAX_LISTS) }
        ensures branches { length self.now.bundles < MAX_LISTS → MAX_BRANCHES < branches
            → result ≡ Err (Limit.Branches (min branches u32.MAX)) }
    {
        if self.is_full() {
            return Err(Limit::Lists {
                lists: MAX_LISTS as u32,
            });
        }
        if branches > MAX_BRANCHES {
            return Err(Limit::Branches {
                branches: branches.min(u32::MAX as usize) as u32,
            });
        }
        Ok(())
    }

    /// Drops the bundles below this number.
    pub fn drop_below(&mut self, number: u64)
        requires { number ≤ next_of self.old }
        ensures { self.new ≡ dropped_below self.old number }
    {
        if self.first < number {
            self.first = number;
        }
    }

    /// Drops every bundle. The next one gets the number `first`.
    pub fn restart(&mut self, first: u64)
        ensures { self.new ≡ record { first = first; bundles = [] } }
    {
        self.first = first;
        self.next = first;
    }

    /// Merges the bundles from `first` up to `last`: the last holds the output alone, or nothing, the others are empty,
    /// and none of them keeps its mark. Numbers of dropped bundles are skipped.
    pub fn merge(&mut self, first: u64, last: u64, output: Option<u64>)
        requires in_order { first ≤ last }
        requires stands { self.old.first ≤ last }
        requires made { last < next_of self.old }
        ensures { self.new ≡ merged self.old first last output }
    {
        let from = self.first.max(first);
        for number in from..last {
            fill(&mut self.slots, number, &[]);
        }
        fill(&mut self.slots, last, output.as_slice());
    }

    /// Gives the bundles from `first` up to `last` an owner, or none. Numbers of dropped bundles are skipped.
    pub fn set_owner(&mut self, first: u64, last: u64, owner: Option<u32>)
        requires in_order { first ≤ last }
        requires stands { self.old.first ≤ last }
        requires made { last < next_of self.old }
        ensures { self.new ≡ marked self.old first last owner }
    {
        let from = self.first.max(first);
        for number in from..last + 1 {
            mark(&mut self.slots, number, owner);
        }
    }

    /// Clears every mark of the actor.
    pub fn release(&mut self, actor: u32)
        ensures { self.new ≡ released self.old actor }
    {
        release(&mut self.slots, actor);
    }
}
