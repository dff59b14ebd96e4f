ghost use Rattle.std.specs.Prelude.{◌≡◌, ◌<◌, ◌≤◌, ◌++◌, option_to_list, length, take, All, IfOk, IfSome, OnOk};
ghost use Rattle.spl_script.specs.Verb.{IsDeed};
ghost use Rattle.spl_script.specs.Lines.{script_text, is_too_far, numbered, last_of, GivesFrom};

use crate::lines::{ScriptLine, Scripts};
use crate::part::first_part;
use crate::reason::{LineFault, LineWhy, ScriptFault};
use crate::verb::read_line;
use spl_message::NoMemory;
use std::alloc::Global;

/// The greatest number of bytes of an input.
pub const INPUT_LIMIT: usize = 16_777_216;

/// The greatest number of lines of an input.
pub const LINE_LIMIT: u64 = 500_000;

const LF: u8 = b'\n';

/// Where a line of an input ends.
#[derive(Clone, Copy)]
struct End {
    /// The line's number, counted from 1.
    line: u64,
    /// How many bytes of the input end with it, its LF included.
    bytes: usize,
}

/// The script that the bytes spell for this number of callers, or the first faulty line. Takes time linear in the
/// bytes, of which those past number 16,777,217 are not looked at. Only a value takes memory of its own.
pub fn read_script(alloc: Global, bytes: &[u8], callers: u32) -> Result<Scripts, ScriptFault>
    ensures exact { GivesFrom result (script_text callers bytes.now) }
    ensures callers { IfOk result (λ lines. All (λ line. line.caller < callers) lines) }
    ensures small { OnOk result (length bytes.now ≤ 16777216) }
{
    let whole = within_limit(bytes);
    let mut room = Vec::new(alloc);
    let mut lines = Vec::new(alloc);
    let mut number: u64 = 1;
    let mut left = whole;
    loop {
        let (text, after) = first_part(left, LF);
        let Some(after) = after else {
            let end = End {
                line: number,
                bytes: whole.len(),
            };
            let line = last_line(alloc, &mut room, text, callers, end)?;
            add_line(&mut lines, line)?;
            return Ok(Scripts::of(lines));
        };
        let end = End {
            line: number,
            bytes: whole.len() - after.len(),
        };
        let line = numbered_line(alloc, &mut room, text, callers, end)?;
        add_line(&mut lines, line)?;
        number += 1;
        left = after;
    }
}

/// The bytes that are looked at.
fn within_limit(bytes: &[u8]) -> &[u8]
    ensures { result.now ≡ take 16777217 bytes.now }
{
    if bytes.len() > INPUT_LIMIT {
        &bytes[..INPUT_LIMIT + 1]
    } else {
        bytes
    }
}

/// Whether a line is too far down.
fn is_too_far_down(end: End) -> bool
    ensures { result ≡ is_too_far end.line end.bytes }
{
    end.line > LINE_LIMIT || end.bytes > INPUT_LIMIT
}

/// The line of these bytes, which are those before its LF, where it is not empty.
fn numbered_line(
    alloc: Global,
    room: &mut Vec<u8>,
    text: &[u8],
    callers: u32,
    end: End,
) -> Result<Option<ScriptLine>, ScriptFault>
    ensures value { GivesFrom result (numbered callers end.line end.bytes text.now) }
    ensures below { IfOk result (λ line. IfSome line (λ line. line.caller < callers)) }
    ensures deed { IfOk result (λ line. IfSome line (λ line. IsDeed line.deed)) }
    ensures near { OnOk result ((end.line ≤ 500000) × (end.bytes ≤ 16777216)) }
{
    if is_too_far_down(end) {
        return Err(ScriptFault::Line {
            line: end.line,
            why: LineWhy::Size,
        });
    }
    match read_line(alloc, room, text, callers) {
        Ok(line) => Ok(line),
        Err(LineFault::Why(why)) => Err(ScriptFault::Line {
            line: end.line,
            why,
        }),
        Err(LineFault::NoMemory) => Err(ScriptFault::NoMemory),
    }
}

/// The line behind the last LF, which is none where no byte stands there.
fn last_line(
    alloc: Global,
    room: &mut Vec<u8>,
    text: &[u8],
    callers: u32,
    end: End,
) -> Result<Option<ScriptLine>, ScriptFault>
    ensures value { GivesFrom result (last_of callers end.line end.bytes text.now) }
    ensures below { IfOk result (λ line. IfSome line (λ line. line.caller < callers)) }
    ensures deed { IfOk result (λ line. IfSome line (λ line. IsDeed line.deed)) }
    ensures few { IfOk result (λ line. IfSome line (λ line. end.line ≤ 500000)) }
    ensures near { OnOk result (0 < length text.now → end.bytes ≤ 16777216) }
{
    if text.is_empty() {
        return Ok(None);
    }
    numbered_line(alloc, room, text, callers, end)
}

/// Puts a line behind the others, where there is one.
fn add_line(lines: &mut Vec<ScriptLine>, line: Option<ScriptLine>) -> Result<(), NoMemory>
    ensures { OnOk result (lines.new.items ≡ lines.old.items ++ option_to_list line) }
{
    if let Some(line) = line {
        lines.push(line)?;
    }
    Ok(())
}
