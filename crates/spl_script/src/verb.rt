ghost use Rattle.std.specs.Prelude.{◌≡◌, ◌<◌, ◌≤◌, length, IfOk, IfSome};
ghost use Rattle.std.specs.Option.{option_copied, option_map};
ghost use Rattle.spl_script.specs.Verb.{IsDeed, deed_of, pair_of, put_of, update_of, delete_of, look_of, scan_of, line_of, without_cr, asked, fields_in, fields_of, only, both};
ghost use Rattle.spl_script.specs.Reason.{Gives};

use crate::lines::{Deed, ScriptLine};
use crate::names::{read_caller, read_end, read_key, read_value};
use crate::part::first_part;
use crate::reason::{LineFault, LineWhy};
use spl_message::{Bound, Call, Key, Message, Span, Value};
use std::alloc::Global;

const SPACE: u8 = b' ';

#[tactic(auto, using(crate::proofs::Parts::only_of_more))]
/// The one field behind the verb, where there is just one.
pub fn one_field(rest: Option<&[u8]>) -> Option<&[u8]>
    ensures { option_copied result ≡ only (fields_in rest.entry) }
{
    match first_part(rest?, SPACE) {
        (field, None) => Some(field),
        (_, Some(_)) => None,
    }
}

#[tactic(auto, using(crate::proofs::Parts::both_of_one, crate::proofs::Parts::both_of_more))]
/// The two fields behind the verb, where there are just two.
pub fn two_fields(rest: Option<&[u8]>) -> Option<(&[u8], &[u8])>
    ensures { option_map (λ fields. (fields.0.now, fields.1.now)) result ≡ both (fields_in rest.entry) }
{
    let (first, rest) = first_part(rest?, SPACE);
    match first_part(rest?, SPACE) {
        (second, None) => Some((first, second)),
        (_, Some(_)) => None,
    }
}

/// The key and the value of the fields behind the verb.
fn read_pair(
    alloc: Global,
    room: &mut Vec<u8>,
    rest: Option<&[u8]>,
) -> Result<(Key, Value), LineFault>
    ensures { Gives result (pair_of (fields_in rest.entry)) }
{
    let Some((key, value)) = two_fields(rest) else {
        return Err(LineFault::Why(LineWhy::Fields));
    };
    let key = read_key(room, key)?;
    let value = read_value(alloc, room, value)?;
    Ok((key, value))
}

/// The put of the fields behind the verb.
fn read_put(alloc: Global, room: &mut Vec<u8>, rest: Option<&[u8]>) -> Result<Deed, LineFault>
    ensures value { Gives result (put_of (fields_in rest.entry)) }
    ensures deed { IfOk result IsDeed }
{
    let (key, value) = read_pair(alloc, room, rest)?;
    Ok(Deed::One(Call::Put(key, Message::Insert(value))))
}

/// The update of the fields behind the verb.
fn read_update(alloc: Global, room: &mut Vec<u8>, rest: Option<&[u8]>) -> Result<Deed, LineFault>
    ensures value { Gives result (update_of (fields_in rest.entry)) }
    ensures deed { IfOk result IsDeed }
{
    let (key, operand) = read_pair(alloc, room, rest)?;
    Ok(Deed::One(Call::Put(key, Message::Update(operand))))
}

/// The delete of the field behind the verb.
fn read_delete(room: &mut Vec<u8>, rest: Option<&[u8]>) -> Result<Deed, LineFault>
    ensures value { Gives result (delete_of (fields_in rest.entry)) }
    ensures deed { IfOk result IsDeed }
{
    let Some(key) = one_field(rest) else {
        return Err(LineFault::Why(LineWhy::Fields));
    };
    let key = read_key(room, key)?;
    Ok(Deed::One(Call::Put(key, Message::Delete)))
}

/// The lookup of the field behind the verb.
fn read_look(room: &mut Vec<u8>, rest: Option<&[u8]>) -> Result<Deed, LineFault>
    ensures value { Gives result (look_of (fields_in rest.entry)) }
    ensures deed { IfOk result IsDeed }
{
    let Some(key) = one_field(rest) else {
        return Err(LineFault::Why(LineWhy::Fields));
    };
    let key = read_key(room, key)?;
    Ok(Deed::One(Call::Look(key)))
}

/// The span of a scan.
fn span_of(from: Option<Key>, end: Option<Key>) -> Span
    ensures from { result.from ≡ from }
    ensures to { result.to ≡ end }
    ensures short { IfSome result.to (λ end. length end ≤ 64) }
{
    let to = match &end {
        Some(key) => Some(Bound::of(key)),
        None => None,
    };
    Span { from, to }
}

/// The scan of the fields behind the verb.
fn read_scan(room: &mut Vec<u8>, rest: Option<&[u8]>) -> Result<Deed, LineFault>
    ensures value { Gives result (scan_of (fields_in rest.entry)) }
    ensures deed { IfOk result IsDeed }
{
    let Some((start, end)) = two_fields(rest) else {
        return Err(LineFault::Why(LineWhy::Fields));
    };
    let start = read_end(room, start)?;
    let end = read_end(room, end)?;
    Ok(Deed::Scan(span_of(start, end)))
}

/// What the verb and the fields behind it ask for.
fn read_deed(
    alloc: Global,
    room: &mut Vec<u8>,
    verb: &[u8],
    rest: Option<&[u8]>,
) -> Result<Deed, LineFault>
    ensures value { Gives result (deed_of verb.now (fields_in rest.entry)) }
    ensures deed { IfOk result IsDeed }
{
    match verb {
        b"put" => read_put(alloc, room, rest),
        b"upd" => read_update(alloc, room, rest),
        b"del" => read_delete(room, rest),
        b"get" => read_look(room, rest),
        b"scan" => read_scan(room, rest),
        _ => Err(LineFault::Why(LineWhy::Verb)),
    }
}

/// What a line that is not empty asks for.
fn read_fields(
    alloc: Global,
    room: &mut Vec<u8>,
    text: &[u8],
    callers: u32,
) -> Result<ScriptLine, LineFault>
    ensures value { Gives result (asked callers (fields_of text.now)) }
    ensures below { IfOk result (λ line. line.caller < callers) }
    ensures deed { IfOk result (λ line. IsDeed line.deed) }
{
    let (caller, rest) = first_part(text, SPACE);
    let Some(rest) = rest else {
        return Err(LineFault::Why(LineWhy::Fields));
    };
    let Some(caller) = read_caller(caller, callers) else {
        return Err(LineFault::Why(LineWhy::Caller));
    };
    let (verb, rest) = first_part(rest, SPACE);
    let deed = read_deed(alloc, room, verb, rest)?;
    Ok(ScriptLine { caller, deed })
}

/// The text without one CR at its end.
fn without_cr(text: &[u8]) -> &[u8]
    ensures { result.now ≡ without_cr text.now }
{
    match text {
        [line @ .., b'\r'] => line,
        _ => text,
    }
}

/// What the line of these bytes says, where it is not empty.
pub fn read_line(
    alloc: Global,
    room: &mut Vec<u8>,
    bytes: &[u8],
    callers: u32,
) -> Result<Option<ScriptLine>, LineFault>
    ensures value { Gives result (line_of callers (without_cr bytes.now)) }
    ensures below { IfOk result (λ line. IfSome line (λ line. line.caller < callers)) }
    ensures deed { IfOk result (λ line. IfSome line (λ line. IsDeed line.deed)) }
{
    let text = without_cr(bytes);
    if text.is_empty() {
        return Ok(None);
    }
    Ok(Some(read_fields(alloc, room, text, callers)?))
}
