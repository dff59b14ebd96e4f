ghost use Rattle.std.specs.Prelude.{◌≡◌, ◌<◌, ◌≤◌, ◌++◌, ℕ, All, IfOk, IfSome, OnOk, Ok, decimal, length};
ghost use Rattle.spl_message.specs.Bound.{IsBound};
ghost use Rattle.spl_message.specs.Key.{IsKey};
ghost use Rattle.spl_script.specs.Lines.{script_text};
ghost use Rattle.spl_script.specs.Text.{is_shown, hex_digit, byte_text, text_of};
ghost use Rattle.spl_script.specs.Writing.{HasBytes, HasEnds, HasParts, IsValueText, IsWhole, call_text, deed_text, end_text, line_text, lines_text, span_text};

use crate::lines::{Deed, ScriptLine, Scripts};
use itoa::Buffer;
use spl_message::{Bound, Call, Key, Message, NoMemory, Span, Value};
use std::alloc::Global;

/// Whether the byte is written by its character.
fn is_shown(byte: u8) -> bool
    ensures { result ≡ is_shown byte }
{
    byte > b' ' && byte < 127 && byte != b'%' && byte != b'*'
}

/// The upper-case digit of a number below 16.
fn hex_digit(number: u8) -> u8
    requires { number < 16 }
    ensures { result ≡ hex_digit number }
{
    if number < 10 {
        b'0' + number
    } else {
        b'A' - 10 + number
    }
}

/// Writes a byte in its one spelling.
fn push_byte(out: &mut Vec<u8>, byte: u8) -> Result<(), NoMemory>
    ensures { OnOk result (out.new.items ≡ out.old.items ++ byte_text byte) }
{
    if is_shown(byte) {
        out.push(byte)?;
    } else {
        out.extend_from_slice(&[b'%', hex_digit(byte / 16), hex_digit(byte % 16)])?;
    }
    Ok(())
}

/// Writes the bytes in their one spelling.
fn push_text(out: &mut Vec<u8>, bytes: &[u8]) -> Result<(), NoMemory>
    ensures text { OnOk result (out.new.items ≡ out.old.items ++ text_of bytes.now) }
    ensures bytes { All (λ byte. byte < 256) bytes.now }
{
    for byte in bytes {
        push_byte(out, *byte)?;
    }
    Ok(())
}

fn push_key(out: &mut Vec<u8>, key: &Key) -> Result<(), NoMemory>
    ensures text { OnOk result (out.new.items ≡ out.old.items ++ text_of key.now) }
    ensures is_key { IsKey key.now }
{
    push_text(out, key.bytes())
}

fn push_value(out: &mut Vec<u8>, value: &Value) -> Result<(), NoMemory>
    ensures text { OnOk result (out.new.items ≡ out.old.items ++ text_of value.now) }
    ensures is_value { IsValueText value.now }
{
    push_text(out, value.bytes())
}

/// Writes where a scan starts.
fn push_start(out: &mut Vec<u8>, start: &Option<Key>) -> Result<(), NoMemory>
    ensures text { OnOk result (out.new.items ≡ out.old.items ++ end_text start.now) }
    ensures key { IfSome start.now IsKey }
{
    match start {
        Some(key) => push_key(out, key),
        None => Ok(out.push(b'*')?),
    }
}

/// Writes where a scan ends.
fn push_end(out: &mut Vec<u8>, end: &Option<Bound>) -> Result<(), NoMemory>
    ensures text { OnOk result (out.new.items ≡ out.old.items ++ end_text end.now) }
    ensures bound { IfSome end.now IsBound }
{
    match end {
        Some(bound) => push_text(out, bound.bytes()),
        None => Ok(out.push(b'*')?),
    }
}

fn push_span(out: &mut Vec<u8>, span: &Span) -> Result<(), NoMemory>
    ensures text { OnOk result (out.new.items ≡ out.old.items ++ span_text span.now) }
    ensures ends { OnOk result (HasEnds span.now) }
{
    out.extend_from_slice(b"scan ")?;
    push_start(out, &span.from)?;
    out.push(b' ')?;
    push_end(out, &span.to)
}

fn push_call(out: &mut Vec<u8>, call: &Call) -> Result<(), NoMemory>
    ensures text { OnOk result (out.new.items ≡ out.old.items ++ call_text call.now) }
    ensures bytes { OnOk result (HasBytes call.now) }
{
    match call {
        Call::Put(key, Message::Insert(value)) => {
            out.extend_from_slice(b"put ")?;
            push_key(out, key)?;
            out.extend_from_slice(b" =")?;
            push_value(out, value)
        }
        Call::Put(key, Message::Update(operand)) => {
            out.extend_from_slice(b"upd ")?;
            push_key(out, key)?;
            out.extend_from_slice(b" =")?;
            push_value(out, operand)
        }
        Call::Put(key, Message::Delete) => {
            out.extend_from_slice(b"del ")?;
            push_key(out, key)
        }
        Call::Look(key) => {
            out.extend_from_slice(b"get ")?;
            push_key(out, key)
        }
        Call::Piece(span) => push_span(out, span),
    }
}

fn push_deed(out: &mut Vec<u8>, deed: &Deed) -> Result<(), NoMemory>
    ensures text { OnOk result (out.new.items ≡ out.old.items ++ deed_text deed.now) }
    ensures parts { OnOk result (HasParts deed.now) }
{
    match deed {
        Deed::One(call) => push_call(out, call),
        Deed::Scan(span) => push_span(out, span),
    }
}

fn push_line(out: &mut Vec<u8>, line: &ScriptLine) -> Result<(), NoMemory>
    ensures text { OnOk result (out.new.items ≡ out.old.items ++ line_text line.now) }
    ensures whole { OnOk result (IsWhole line.now) }
{
    let caller = line.caller;
    out.extend_from_slice(Buffer::new().format(caller).as_bytes())?;
    out.push(b' ')?;
    push_deed(out, &line.deed)?;
    out.push(b'\n')?;
    Ok(())
}

/// The text of the script, in which each line has its one spelling. Read again, it is the same script, unless it has
/// more bytes than an input may have.
pub fn write_script(alloc: Global, script: &Scripts) -> Result<Vec<u8>, NoMemory>
    ensures text { IfOk result (λ text. text.items ≡ lines_text script.now) }
    ensures again { IfOk result (λ text. (callers : ℕ) → All (λ line. line.caller < callers) script.now
        → length text.items ≤ 16777216 → script_text callers text.items ≡ Ok script.now) }
{
    let mut out = Vec::new(alloc);
    let lines = script.lines();
    for line in lines {
        push_line(&mut out, line)?;
    }
    Ok(out)
}
