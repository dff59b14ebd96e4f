//! What is in hand of a piece: one message for each key that was met.
ghost use Rattle.std.specs.Prelude.{◌≡◌, IfOk, OnOk};
ghost use Rattle.spl_message.specs.Entries.{message_in};
ghost use Rattle.spl_message.specs.Message.{settle};
ghost use Rattle.spl_range.specs.Adding.{HasSame, PutsUnder};
ghost use Rattle.spl_range.specs.Pieces.{AreValues, living_of};

use spl_base::NoMemory;
use spl_message::{Key, MergeLaw, Message, Pairs, Span, Value, combine_owned, settle};
use std::alloc::Global;
use std::collections::BTreeMap;
use std::mem;

/// Puts an older message of the key under the one that is in hand, if there is one.
pub(crate) fn put_under<L: MergeLaw>(
    alloc: Global,
    law: &L,
    found: &mut BTreeMap<Key, Message>,
    key: &Key,
    older: Message,
) -> Result<(), NoMemory>
    requires { L.ready law.now }
    ensures { OnOk result (PutsUnder (L.rule law.now) found.old.entries found.new.entries key.now older) }
{
    if let Some(newer) = found.get_mut(key) {
        let taken = mem::replace(newer, Message::Delete);
        *newer = combine_owned(alloc, law, key, older, taken)?;
        return Ok(());
    }
    found.insert(*key, older)?;
    Ok(())
}

/// Drops the messages at the end whose keys the span does not hold.
pub(crate) fn drop_beyond(found: &mut BTreeMap<Key, Message>, span: &Span)
    ensures { HasSame span.now found.old.entries found.new.entries }
{
    while let Some((last, _)) = found.last_key_value() {
        if span.holds(last) {
            return;
        }
        found.pop_last();
    }
}

/// What the message makes of no value, where the span holds the key.
fn value_of<L: MergeLaw>(
    alloc: Global,
    law: &L,
    span: &Span,
    key: &Key,
    message: Message,
) -> Result<Option<Value>, NoMemory>
    requires { L.ready law.now }
    ensures { IfOk result (λ value. value ≡ living_of (L.rule law.now) span.now (key.now, message)) }
{
    if !span.holds(key) {
        return Ok(None);
    }
    settle(alloc, law, key, Some(message))
}

/// The keys of the span that have a value, with what their messages make of no value.
pub(crate) fn living<L: MergeLaw>(
    alloc: Global,
    law: &L,
    span: &Span,
    found: BTreeMap<Key, Message>,
) -> Result<Pairs, NoMemory>
    requires { L.ready law.now }
    ensures { IfOk result (AreValues span.now (λ key. settle (L.rule law.now) key (message_in found.entries key))) }
{
    let mut pairs = Vec::new(alloc);
    for (key, message) in found {
        if let Some(value) = value_of(alloc, law, span, &key, message)? {
            pairs.push((key, value))?;
        }
    }
    Ok(Pairs::of(pairs))
}
