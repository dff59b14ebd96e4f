ghost use Rattle.std.specs.Prelude.{◌≡◌, ◌<◌, ◌≤◌, ◌-◌, ℕ, List, true, false, [], None, Some, IfOk, IfSome, IfNone, IsErr, OnErr, if◌then◌else◌, length, replicate, slice_get, slice_set, take};
ghost use Rattle.std.specs.BinaryHeap.{heap_capacity, heap_items, heap_len};
ghost use Rattle.std.specs.List.{AllByRecursion};
ghost use Rattle.spl_message.specs.Entries.{Entries};
ghost use Rattle.spl_message.specs.Message.{combine_all};
ghost use Rattle.spl_message.specs.Span.{in_span};
ghost use Rattle.spl_message.specs.Table.{kept};
ghost use Rattle.spl_merge.specs.Merger.{AreFrom, IsAbove, IsStep, Steps, answer_of, at_key, headless, kept_at, messages_at, taken_at};
ghost use Rattle.spl_merge.specs.Ranks.{QueuesHead, Takes, joined_with};
ghost use Rattle.spl_merge.specs.Merging.{AreStreams, IsMergedSoFar, built_by, left_of};

use crate::step::Step;
use spl_message::{Key, MergeLaw, Message, NoMemory, Span, combine_owned, settle};
use std::alloc::Global;
use std::cmp::Reverse;
use std::collections::BinaryHeap;
use std::marker::Model;

/// The order in which heads are taken: by key, and for one key from the oldest stream to the newest.
#[derive(Clone, Copy, Debug, PartialEq, Eq, PartialOrd, Ord)]
pub(crate) struct Rank {
    key: Key,
    stream: u32,
}

/// A merge of numbered streams, the oldest first.
#[derive(Drop)]
pub struct Merger {
    span: Span,
    bottom: bool,
    heads: Vec<Option<(Key, Message)>>,
    wanted: Vec<u32>,
    last: Option<Key>,
    failed: bool,
    queue: BinaryHeap<Reverse<Rank>>,
}

impl Model for Merger {
    ghost use Rattle.std.specs.Prelude.{◌≤◌, ◌<◌, ◌^◌, length, vec_capacity};
    ghost use Rattle.std.specs.BinaryHeap.{heap_capacity, heap_items};
    ghost use Rattle.spl_merge.specs.Merger.{Merger as Shown};
    ghost use Rattle.spl_merge.specs.Ranks.{AreQueued};

    ghost Value = { Shown };

    ghost view = { λ m. record {
      span = m.span;
      bottom = m.bottom;
      heads = m.heads.items;
      wanted = m.wanted.items;
      last = m.last;
      failed = m.failed;
    } };

    ghost invariant = { λ m. AreQueued m.heads.items m.wanted.items m.last (heap_items m.queue)
        × (length m.heads.items < 2 ^ 32)
        × (length m.heads.items ≤ vec_capacity m.wanted)
        × (length m.heads.items ≤ heap_capacity m.queue) };
}

impl Merger {
    /// A merge of this many streams over the keys of a span. `bottom` says that nothing older lies below, so deletes
    /// are dropped and a kept message is an insert. The first entry of each stream has to be given.
    pub fn new(alloc: Global, span: &Span, bottom: bool, streams: u32) -> Result<Merger, NoMemory>
        ensures { IfOk result (λ merger. merger ≡ record {
          span = span.now;
          bottom = bottom;
          heads = replicate streams None;
          wanted = headless 0 (replicate streams None);
          last = None;
          failed = false;
        }) }
    {
        let room = streams as usize;
        let mut heads = Vec::with_capacity(alloc, room)?;
        let mut wanted = Vec::with_capacity(alloc, room)?;
        for stream in 0..streams {
            heads.push(None)?;
            wanted.push(stream)?;
        }
        let queue = BinaryHeap::with_capacity(alloc, room)?;
        Ok(Merger {
            span: *span,
            bottom,
            heads,
            wanted,
            last: None,
            failed: false,
            queue,
        })
    }

    /// The stream whose next entry has to be given first.
    pub fn wanted(&self) -> Option<u32>
        ensures { result ≡ slice_get self.now.wanted (length self.now.wanted - 1) }
    {
        self.wanted.last().copied()
    }

    /// Gives the next entry of the stream, or that it has ended. Takes no memory.
    pub fn give(&mut self, stream: u32, entry: Option<(Key, Message)>)
        requires wanted { slice_get self.old.wanted (length self.old.wanted - 1) ≡ Some stream }
        requires rises { IfSome entry (λ next. IsAbove self.old.last next.0) }
        ensures { self.new ≡ record self.old {
          heads = slice_set self.old.heads stream entry;
          wanted = take (length self.old.wanted - 1) self.old.wanted;
        } }
    {
        self.wanted.pop();
        enqueue(&mut self.queue, stream, &entry);
        self.heads[stream as usize] = entry;
    }

    /// Takes the heads of the least key, and returns what the merge keeps of them. Only updates take memory. After a
    /// failed allocation the merger has failed, and each later step fails.
    pub fn step<L: MergeLaw>(&mut self, law: &L) -> Result<Step, NoMemory>
        requires ready { L.ready law.now }
        requires given { self.old.wanted ≡ [] }
        ensures step { self.old.failed ≡ false → Steps (L.rule law.now) self.old result self.new }
        ensures merged { self.old.failed ≡ false → (following : List Entries) → AreStreams self.old.heads following →
            IfOk result (λ step. IsMergedSoFar (L.rule law.now) (left_of self.old.heads following)
            self.old.span self.old.bottom (built_by step) (left_of self.new.heads following)) }
        ensures failed { self.old.failed ≡ true → IsErr result × (self.new ≡ self.old) }
    {
        if self.failed {
            return Err(NoMemory);
        }
        let Some(key) = self.least() else {
            return Ok(Step::Ended);
        };
        let message = self.take_key(law, &key);
        self.pass(key, message.is_err());
        Ok(answer(key, message?))
    }

    /// The least key that a head has.
    fn least(&self) -> Option<Key>
        ensures some { IfSome result (λ key. IsStep key self.now) }
        ensures none { IfNone result (AllByRecursion (λ head. head ≡ None) self.now.heads) }
    {
        let top = self.queue.peek()?;
        Some(top.0.key)
    }

    /// Takes the heads of the key, and answers what the merge keeps of them.
    fn take_key<L: MergeLaw>(&mut self, law: &L, key: &Key) -> Result<Option<Message>, NoMemory>
        requires ready { L.ready law.now }
        requires least { AreFrom key.now self.old.heads }
        ensures kept { IfOk result (λ found. found ≡ kept_at (L.rule law.now) self.old key.now) }
        ensures taken { self.new ≡ taken_at key.now self.old }
    {
        let joined = self.join(law, key)?;
        let alloc = *self.heads.allocator();
        keep(alloc, law, key, self.bottom, joined)
    }

    /// Takes the heads of the key, and combines their messages, where the span holds the key.
    fn join<L: MergeLaw>(&mut self, law: &L, key: &Key) -> Result<Option<Message>, NoMemory>
        requires ready { L.ready law.now }
        requires least { AreFrom key.now self.old.heads }
        ensures joined { IfOk result (λ found. found ≡ (if in_span self.old.span key.now
            then combine_all (L.rule law.now) key.now (messages_at key.now self.old.heads) else None)) }
        ensures taken { self.new ≡ taken_at key.now self.old }
    {
        let alloc = *self.heads.allocator();
        let inside = self.span.holds(key);
        let mut joined = Ok(None);
        while let Some(newer) = self.take(key) {
            if inside {
                joined = add(alloc, law, key, joined, newer);
            }
        }
        joined
    }

    /// Takes the head of the oldest stream that has the key.
    fn take(&mut self, key: &Key) -> Option<Message>
        requires least { AreFrom key.now self.old.heads }
        ensures some { IfSome result (λ message. Takes key.now self.old message self.new) }
        ensures none { IfNone result (at_key 0 key.now self.old.heads ≡ []) }
        ensures same { IfNone result (self.new ≡ self.old) }
    {
        let top = self.queue.peek()?;
        if top.0.key != *key {
            return None;
        }
        let stream = top.0.stream;
        self.queue.pop();
        self.wanted.push(stream).unwrap();
        let (_, message) = self.heads[stream as usize].take().unwrap();
        Some(message)
    }

    /// Ends a step at the key, whose heads were taken.
    fn pass(&mut self, key: Key, failed: bool)
        requires { AllByRecursion (λ head. IfSome head (λ entry. IsAbove (Some key) entry.0)) self.old.heads }
        ensures { self.new ≡ record self.old { last = Some key; failed = failed } }
    {
        self.last = Some(key);
        self.failed = failed;
    }
}

/// Adds the rank of the stream's head, if there is one.
fn enqueue(queue: &mut BinaryHeap<Reverse<Rank>>, stream: u32, head: &Option<(Key, Message)>)
    requires { heap_len queue.old < heap_capacity queue.old }
    ensures queued { QueuesHead stream head.now (heap_items queue.old) (heap_items queue.new) }
    ensures room { heap_capacity queue.old ≤ heap_capacity queue.new }
{
    if let Some((key, _)) = head {
        let rank = Rank { key: *key, stream };
        queue.push(Reverse(rank)).unwrap();
    }
}

/// The message of the key with a newer one.
fn add<L: MergeLaw>(
    alloc: Global,
    law: &L,
    key: &Key,
    older: Result<Option<Message>, NoMemory>,
    newer: Message,
) -> Result<Option<Message>, NoMemory>
    requires { L.ready law.now }
    ensures ok { IfOk result (λ found. IfOk older (λ before.
        found ≡ joined_with (L.rule law.now) key.now before newer)) }
    ensures err { OnErr older (IsErr result) }
{
    match older? {
        Some(older) => Ok(Some(combine_owned(alloc, law, key, older, newer)?)),
        None => Ok(Some(newer)),
    }
}

/// The result of a step that keeps this of the key.
fn answer(key: Key, message: Option<Message>) -> Step
    ensures { result ≡ answer_of key message }
{
    match message {
        Some(message) => Step::Entry(key, message),
        None => Step::Dropped,
    }
}

/// What the merge keeps of the key's message.
fn keep<L: MergeLaw>(
    alloc: Global,
    law: &L,
    key: &Key,
    bottom: bool,
    message: Option<Message>,
) -> Result<Option<Message>, NoMemory>
    requires { L.ready law.now }
    ensures { IfOk result (λ found. found ≡ kept (L.rule law.now) bottom key.now message) }
{
    if !bottom {
        return Ok(message);
    }
    match settle(alloc, law, key, message)? {
        Some(value) => Ok(Some(Message::Insert(value))),
        None => Ok(None),
    }
}
