ghost use Rattle.std.specs.Prelude.{◌≡◌, ℕ, List, ◌&&◌, IsTrue};
ghost use Rattle.spl_message.specs.Key.{is_below};
ghost use Rattle.spl_message.specs.Span.{InSpan, are_empty, first_end, in_span, is_before};

use crate::bound::Bound;
use crate::key::Key;
use std::cmp::Ordering;

/// The keys from an inclusive start to an exclusive end. A side that is `None` is open and excludes nothing. A span may
/// be empty.
#[derive(Clone, Copy, Debug, PartialEq, Eq)]
pub struct Span {
    pub from: Option<Key>,
    pub to: Option<Bound>,
}

impl Span {
    /// Whether the key lies in the span. Takes no memory.
    pub fn holds(&self, key: &Key) -> bool
        ensures { result ≡ in_span self.now key.now }
    {
        let bytes = key.bytes();
        let from = match &self.from {
            Some(start) => !is_less(bytes, start.bytes()),
            None => true,
        };
        let before = match &self.to {
            Some(end) => is_less(bytes, end.bytes()),
            None => true,
        };
        from && before
    }

    #[tactic(auto, using(crate::proofs::Spans::empty_has_none))]
    /// Whether the end is not above the start, so that no key lies between them.
    pub fn is_empty(&self) -> bool
        ensures value { result ≡ are_empty self.now.from self.now.to }
        ensures none { IsTrue result → (key : List ℕ) → ¬ (InSpan self.now key) }
    {
        match (&self.from, &self.to) {
            (Some(start), Some(end)) => !end.is_above(start),
            _ => false,
        }
    }

    #[tactic(auto, using(crate::proofs::Spans::in_span_with_end))]
    /// The keys of the span that are below this end too.
    pub fn with_end(&self, end: &Option<Bound>) -> Span
        ensures start { result.from ≡ self.now.from }
        ensures end { result.to ≡ first_end self.now.to end.now }
        ensures keys { (key : List ℕ) → in_span result key ≡ (in_span self.now key && is_before end.now key) }
    {
        let to = earlier(&self.to, end);
        Span {
            from: self.from,
            to,
        }
    }
}

/// The end that comes first.
fn earlier(end: &Option<Bound>, other: &Option<Bound>) -> Option<Bound>
    ensures { result ≡ first_end end.now other.now }
{
    match (end, other) {
        (None, other) => *other,
        (end, None) => *end,
        (Some(first), Some(second)) => {
            if is_less(second.bytes(), first.bytes()) {
                Some(*second)
            } else {
                Some(*first)
            }
        }
    }
}

/// Whether the bytes come before the others.
fn is_less(bytes: &[u8], others: &[u8]) -> bool
    ensures { result ≡ is_below bytes.now others.now }
{
    bytes.cmp(&others) == Ordering::Less
}
