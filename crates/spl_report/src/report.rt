//! The report of a run: a row for each call, each with one spelling.
ghost use Rattle.std.specs.Prelude.{◌≡◌, ◌++◌, ℕ, List, IfOk, OnOk, flat_map, length, decimal, ◌<◌};
ghost use Rattle.spl_report.specs.ReportText.{is_shown, hex_digit, byte_text, text_of, place_text, call_text, cause_text, end_text, pair_text, answer_text, row_text, report_text, IsInRange};
ghost use Rattle.std.specs.List.{AllByRecursion};
ghost use Rattle.spl_report.specs.declared.report.Row.{Row};

use itoa::Buffer;
use spl_message::{Answer, Bound, Call, Cause, Key, Message, NoMemory, Pairs, Span, Value};
use std::alloc::Global;

/// A call as a run made it: its place in the history, where it has one, who made it, and what it was answered.
#[derive(Debug, PartialEq, Eq, Drop)]
pub struct Row {
    pub place: Option<u64>,
    pub caller: u32,
    pub call: Call,
    pub answer: Answer,
}

/// Whether the byte is written by its character.
fn is_shown_byte(byte: u8) -> bool
    ensures { result ≡ is_shown byte }
{
    byte > b' ' && byte < 127 && byte != b'%' && byte != b'*'
}

/// The upper-case digit of a number below 16.
fn digit_of(number: u8) -> u8
    requires { number < 16 }
    ensures { result ≡ hex_digit number }
{
    if number < 10 {
        b'0' + number
    } else {
        55 + number
    }
}

/// Writes the bytes in their one spelling.
fn push_text(out: &mut Vec<u8>, bytes: &[u8]) -> Result<(), NoMemory>
    ensures { OnOk result (out.new.items ≡ out.old.items ++ text_of bytes.now) }
{
    for byte in bytes {
        push_byte(out, *byte)?;
    }
    Ok(())
}

/// Writes a byte in its one spelling.
fn push_byte(out: &mut Vec<u8>, byte: u8) -> Result<(), NoMemory>
    ensures { OnOk result (out.new.items ≡ out.old.items ++ byte_text byte) }
{
    if is_shown_byte(byte) {
        out.push(byte)?;
    } else {
        out.extend_from_slice(&[b'%', digit_of(byte / 16), digit_of(byte % 16)])?;
    }
    Ok(())
}

/// Writes a number in decimal.
pub fn push_number(out: &mut Vec<u8>, number: u64) -> Result<(), NoMemory>
    ensures { OnOk result (out.new.items ≡ out.old.items ++ decimal number) }
{
    let mut buffer = Buffer::new();
    out.extend_from_slice(buffer.format(number).as_bytes())?;
    Ok(())
}

fn push_place(out: &mut Vec<u8>, place: Option<u64>) -> Result<(), NoMemory>
    ensures { OnOk result (out.new.items ≡ out.old.items ++ place_text place) }
{
    match place {
        Some(place) => push_number(out, place),
        None => Ok(out.push(b'-')?),
    }
}

fn push_call(out: &mut Vec<u8>, call: &Call) -> Result<(), NoMemory>
    ensures { OnOk result (out.new.items ≡ out.old.items ++ call_text call.now) }
{
    match call {
        Call::Put(key, Message::Insert(value)) => {
            out.extend_from_slice(b"put ")?;
            push_text(out, key.bytes())?;
            out.extend_from_slice(b" =")?;
            push_text(out, value.bytes())
        }
        Call::Put(key, Message::Update(operand)) => {
            out.extend_from_slice(b"upd ")?;
            push_text(out, key.bytes())?;
            out.extend_from_slice(b" =")?;
            push_text(out, operand.bytes())
        }
        Call::Put(key, Message::Delete) => {
            out.extend_from_slice(b"del ")?;
            push_text(out, key.bytes())
        }
        Call::Look(key) => {
            out.extend_from_slice(b"get ")?;
            push_text(out, key.bytes())
        }
        Call::Piece(span) => push_span(out, span),
    }
}

/// Writes what a piece asks for.
fn push_span(out: &mut Vec<u8>, span: &Span) -> Result<(), NoMemory>
    ensures { OnOk result (out.new.items ≡ out.old.items ++ call_text (Call.Piece span.now)) }
{
    out.extend_from_slice(b"scan ")?;
    match &span.from {
        Some(key) => push_text(out, key.bytes())?,
        None => out.push(b'*')?,
    }
    out.push(b' ')?;
    push_end(out, &span.to)
}

/// Writes an end of a scan.
fn push_end(out: &mut Vec<u8>, end: &Option<Bound>) -> Result<(), NoMemory>
    ensures { OnOk result (out.new.items ≡ out.old.items ++ end_text end.now) }
{
    match end {
        Some(bound) => push_text(out, bound.bytes()),
        None => Ok(out.push(b'*')?),
    }
}

/// Writes a key with its value, on a line of its own.
fn push_pair(out: &mut Vec<u8>, key: &Key, value: &Value) -> Result<(), NoMemory>
    ensures { OnOk result (out.new.items ≡ out.old.items ++ pair_text (key.now, value.now)) }
{
    out.extend_from_slice(b"\n+ ")?;
    push_text(out, key.bytes())?;
    out.extend_from_slice(b" =")?;
    push_text(out, value.bytes())
}

/// Writes the pairs of a piece.
fn push_pairs(out: &mut Vec<u8>, pairs: &Pairs) -> Result<(), NoMemory>
    ensures { OnOk result (out.new.items ≡ out.old.items ++ decimal (length pairs.now) ++ flat_map pair_text pairs.now) }
{
    let list = pairs.as_slice();
    push_number(out, list.len() as u64)?;
    for (key, value) in list {
        push_pair(out, key, value)?;
    }
    Ok(())
}

/// The word of a cause.
fn word_of(cause: Cause) -> &'static [u8]
    ensures { result.now ≡ cause_text cause }
{
    match cause {
        Cause::Fault => b"fault",
        Cause::Damaged => b"damaged",
        Cause::Full => b"full",
        Cause::Nodes => b"nodes",
        Cause::Spent => b"spent",
        Cause::Memory => b"memory",
    }
}

fn push_answer(out: &mut Vec<u8>, answer: &Answer) -> Result<(), NoMemory>
    ensures { OnOk result (out.new.items ≡ out.old.items ++ answer_text answer.now) }
{
    match answer {
        Answer::Done => Ok(out.extend_from_slice(b"ok")?),
        Answer::Missing => Ok(out.extend_from_slice(b"none")?),
        Answer::Value(value) => {
            out.push(b'=')?;
            push_text(out, value.bytes())
        }
        Answer::Pairs { end, pairs } => {
            push_end(out, end)?;
            out.push(b' ')?;
            push_pairs(out, pairs)
        }
        Answer::Stopped(cause) => Ok(out.extend_from_slice(word_of(*cause))?),
    }
}

/// Writes a row: a line, and behind it one for each pair of a piece.
pub fn push_row(out: &mut Vec<u8>, row: &Row) -> Result<(), NoMemory>
    ensures { OnOk result (out.new.items ≡ out.old.items ++ row_text row.now) }
{
    push_place(out, row.place)?;
    out.push(b' ')?;
    push_number(out, row.caller as u64)?;
    out.push(b' ')?;
    push_call(out, &row.call)?;
    out.push(b' ')?;
    push_answer(out, &row.answer)?;
    out.push(b'\n')?;
    Ok(())
}

/// The text of the rows, in one growing buffer.
pub fn write_report(alloc: Global, rows: &[Row]) -> Result<Vec<u8>, NoMemory>
    ensures { IfOk result (λ text. text.items ≡ report_text rows.now) }
{
    let mut out = Vec::new(alloc);
    for row in rows {
        push_row(&mut out, row)?;
    }
    Ok(out)
}

/// No two reports of rows have the same text: the law of the definition of report text.
pub fn one_report()
    ensures { (rows others : List Row) → AllByRecursion IsInRange rows → AllByRecursion IsInRange others → report_text rows ≡ report_text others → rows ≡ others }
{}
