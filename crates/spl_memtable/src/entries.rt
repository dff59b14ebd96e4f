ghost use Rattle.std.specs.Prelude.{◌≡◌, filter};
ghost use Rattle.std.specs.Iterator.{YieldsFirstBy, item_count};
ghost use Rattle.spl_message.specs.Entries.{AreEntries};
ghost use Rattle.spl_message.specs.Span.{is_before};

use spl_message::{Bound, Key, Message};
use std::collections::btree_map::Range;
use std::marker::Model;

/// The keys and messages of a slice, in the order of the keys. A clause sees the list of those that are left.
#[derive(Drop)]
pub struct Entries<'a> {
    rest: Rest<'a>,
    end: Option<Bound>,
}

/// What is left: of a list, or of a map, up to an end.
#[derive(Drop)]
enum Rest<'a> {
    Own(&'a [(Key, Message)]),
    Shared(Range<'a, Key, Message>),
}

impl<'a> Model for Entries<'a> {
    ghost use Rattle.spl_message.specs.Entries.{Entries};

    ghost Value = { Entries };

    ghost use Rattle.spl_memtable.specs.Left.{left, IsInOrder};

    ghost view = { λ e. left e.rest e.end };

    ghost invariant = { λ e. IsInOrder e.rest };
}

impl<'a> Entries<'a> {
    pub(crate) fn of_list(entries: &'a [(Key, Message)]) -> Entries<'a>
        requires { AreEntries entries.now }
        ensures { result ≡ entries.now }
    {
        Entries {
            rest: Rest::Own(entries),
            end: None,
        }
    }

    pub(crate) fn of_range(entries: Range<'a, Key, Message>, end: Option<Bound>) -> Entries<'a>
        requires { AreEntries entries }
        ensures { result ≡ filter (λ entry. is_before end entry.0) entries.entry }
    {
        Entries {
            rest: Rest::Shared(entries),
            end,
        }
    }
}

impl<'a> Iterator for Entries<'a> {
    type Item = (&'a Key, &'a Message);

    ghost next_gives = { YieldsFirstBy (λ entry. (entry.0.now, entry.1.now)) (λ left. left) };

    ghost remaining = { item_count (λ left. left) };

    fn next(&mut self) -> Option<(&'a Key, &'a Message)> {
        match &mut self.rest {
            Rest::Own(entries) => {
                let (first, others) = entries.split_first()?;
                *entries = others;
                Some(key_and_message(first))
            }
            Rest::Shared(entries) => {
                let (key, message) = entries.next()?;
                if ends_after(&self.end, key) {
                    Some((key, message))
                } else {
                    None
                }
            }
        }
    }
}

/// The parts of the entry.
fn key_and_message<'a>(entry: &'a (Key, Message)) -> (&'a Key, &'a Message)
    ensures key { result.0.now ≡ entry.now.0 }
    ensures message { result.1.now ≡ entry.now.1 }
{
    (&entry.0, &entry.1)
}

/// Whether the key is below the end, if there is one.
fn ends_after(end: &Option<Bound>, key: &Key) -> bool
    ensures { result ≡ is_before end.now key.now }
{
    match end {
        Some(end) => end.is_above(key),
        None => true,
    }
}
