ghost use Rattle.std.specs.Prelude.{◌≡◌, ◌<◌, IfSome};
ghost use Rattle.spl_script.specs.Names.{caller_of, key_of, key_of_bytes, value_of, value_of_bytes, value_of_text, end_of};
ghost use Rattle.spl_script.specs.Reason.{Gives};

use crate::reason::{LineFault, LineWhy};
use crate::text::{are_plain, spell};
use spl_message::{Key, Value, ValueFault};
use std::alloc::Global;

/// The caller that a field names: 1 to 20 decimal digits whose number is below the number of callers.
pub fn read_caller(field: &[u8], callers: u32) -> Option<u32>
    ensures value { result ≡ caller_of callers field.now }
    ensures below { IfSome result (λ caller. caller < callers) }
{
    if field.is_empty() || field.len() > 20 {
        return None;
    }
    let mut number: u64 = 0;
    for byte in field {
        if !byte.is_ascii_digit() {
            return None;
        }
        number = 10 * number + (*byte - b'0') as u64;
        if number >= callers as u64 {
            return None;
        }
    }
    Some(number as u32)
}

/// The key of these bytes.
fn key_of_bytes(bytes: &[u8]) -> Result<Key, LineFault>
    ensures { Gives result (key_of_bytes bytes.now) }
{
    match Key::read(bytes) {
        Ok(key) => Ok(key),
        Err(_) => Err(LineFault::Why(LineWhy::Key)),
    }
}

#[tactic(auto, using(crate::proofs::Texts::plain_text))]
/// The key that a field spells. A text with `%` is spelled in the room, in the place of what it held.
pub fn read_key(room: &mut Vec<u8>, field: &[u8]) -> Result<Key, LineFault>
    ensures { Gives result (key_of field.now) }
{
    if are_plain(field) {
        return key_of_bytes(field);
    }
    if !spell(room, field)? {
        return Err(LineFault::Why(LineWhy::Text));
    }
    key_of_bytes(room.as_slice())
}

/// The value of these bytes.
fn value_of_bytes(alloc: Global, bytes: &[u8]) -> Result<Value, LineFault>
    ensures { Gives result (value_of_bytes bytes.now) }
{
    match Value::read(alloc, bytes) {
        Ok(value) => Ok(value),
        Err(ValueFault::Long { .. }) => Err(LineFault::Why(LineWhy::Value)),
        Err(ValueFault::NoMemory) => Err(LineFault::NoMemory),
    }
}

#[tactic(auto, using(crate::proofs::Texts::plain_text))]
/// The value that a text spells. A text with `%` is spelled in the room, in the place of what it held.
fn read_value_text(alloc: Global, room: &mut Vec<u8>, text: &[u8]) -> Result<Value, LineFault>
    ensures { Gives result (value_of_text text.now) }
{
    if are_plain(text) {
        return value_of_bytes(alloc, text);
    }
    if !spell(room, text)? {
        return Err(LineFault::Why(LineWhy::Text));
    }
    value_of_bytes(alloc, room.as_slice())
}

/// The value that a field spells: `=` and a text.
pub fn read_value(alloc: Global, room: &mut Vec<u8>, field: &[u8]) -> Result<Value, LineFault>
    ensures { Gives result (value_of field.now) }
{
    match field {
        [b'=', text @ ..] => read_value_text(alloc, room, text),
        _ => Err(LineFault::Why(LineWhy::Value)),
    }
}

/// The end of a scan that a field spells, where it is not open.
pub fn read_end(room: &mut Vec<u8>, field: &[u8]) -> Result<Option<Key>, LineFault>
    ensures { Gives result (end_of field.now) }
{
    match field {
        b"*" => Ok(None),
        _ => Ok(Some(read_key(room, field)?)),
    }
}
