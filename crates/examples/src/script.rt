//! Scripts that are made.

use std::alloc::{AllocError, Global};
use std::fmt::Write;

/// How many puts of other keys stand between the updates of one key: more than a memtable takes.
const BETWEEN: u32 = 6_000;

/// How many keys are put below and above a key that is deleted.
const BESIDE: u32 = 20_000;

/// As many lines as a script may have.
pub(crate) const LARGE_LINES: u32 = 500_000;

/// How many keys the large script has. Two of its lines have the same key only where they are a multiple of this apart.
const LARGE_KEYS: u32 = 100_003;

/// How many keys are put before the scan of all: enough for a tree of several leaves, each of which takes a piece.
pub(crate) const SCANNED: u32 = 80_000;

/// A step that has no factor in common with the number of the keys: they all come, in an order that jumps about.
const STEP: u32 = 7_919;

/// Appends puts of so many keys that begin with this letter.
fn push_puts(script: &mut String, letter: char, count: u32) -> Result<(), AllocError> {
    for number in 0..count {
        writeln!(script, "0 put {letter}{number:05} ={number}")?;
    }
    Ok(())
}

/// A number is updated twice, and then looked up.
pub(crate) fn counter(alloc: Global) -> Result<String, AllocError> {
    let mut script = String::from_str(alloc, "0 upd n =1\n")?;
    push_puts(&mut script, 'k', BETWEEN)?;
    script.push_str("0 upd n =2\n0 get n\n")?;
    Ok(script)
}

/// A text is updated three times, and then looked up.
pub(crate) fn tail(alloc: Global) -> Result<String, AllocError> {
    let mut script = String::from_str(alloc, "0 upd t =a\n")?;
    push_puts(&mut script, 'k', BETWEEN)?;
    script.push_str("0 upd t =b\n")?;
    push_puts(&mut script, 'k', BETWEEN)?;
    script.push_str("0 upd t =c\n0 get t\n")?;
    Ok(script)
}

/// A key is put and deleted, with puts of its neighbours on both sides after each, and then asked for.
pub(crate) fn deleted(alloc: Global) -> Result<String, AllocError> {
    let mut script = String::new(alloc);
    for line in ["0 put x =1\n", "0 del x\n"] {
        script.push_str(line)?;
        push_puts(&mut script, 'w', BESIDE)?;
        push_puts(&mut script, 'y', BESIDE)?;
    }
    script.push_str("0 get x\n0 scan x x0\n")?;
    Ok(script)
}

/// Keys are put in an order that jumps about, and then all scanned.
pub(crate) fn scanned(alloc: Global) -> Result<String, AllocError> {
    let mut script = String::new(alloc);
    for place in 0..SCANNED {
        let number = place * STEP % SCANNED;
        writeln!(script, "0 put p{number:05} =v{number}")?;
    }
    script.push_str("0 scan * *\n")?;
    Ok(script)
}

/// What a line of the large script asks for.
#[derive(Clone, Copy, Debug)]
enum Turn {
    Put,
    /// A lookup of a key that has no value.
    GetNone,
    /// A lookup of a key that was put `LARGE_KEYS` lines before, where there are so many.
    GetPut,
    Delete,
}

/// The turn of a line. The line that met its key last, if any, has the turn three before, since 100,003 is 3 modulo 5:
/// so of the two lookups in five lines the first comes after a delete, and the second after a put.
fn turn_of(line: u32) -> Turn {
    match line % 5 {
        0 | 1 => Turn::Put,
        2 => Turn::GetNone,
        3 => Turn::GetPut,
        _ => Turn::Delete,
    }
}

/// The script that examples/large.sh writes.
pub(crate) fn large(alloc: Global) -> Result<String, AllocError> {
    let mut script = String::new(alloc);
    for line in 0..LARGE_LINES {
        let key = line * STEP % LARGE_KEYS;
        match turn_of(line) {
            Turn::Put => writeln!(script, "0 put key-{key:06} =value-{line}")?,
            Turn::GetNone | Turn::GetPut => writeln!(script, "0 get key-{key:06}")?,
            Turn::Delete => writeln!(script, "0 del key-{key:06}")?,
        }
    }
    Ok(script)
}

/// The report of the large script.
pub(crate) fn large_report(alloc: Global) -> Result<String, AllocError> {
    let mut report = String::new(alloc);
    for line in 0..LARGE_LINES {
        let key = line * STEP % LARGE_KEYS;
        write!(report, "{line} 0 ")?;
        match (turn_of(line), line.checked_sub(LARGE_KEYS)) {
            (Turn::Put, _) => writeln!(report, "put key-{key:06} =value-{line} ok")?,
            (Turn::GetPut, Some(put)) => writeln!(report, "get key-{key:06} =value-{put}")?,
            (Turn::GetPut | Turn::GetNone, _) => writeln!(report, "get key-{key:06} none")?,
            (Turn::Delete, _) => writeln!(report, "del key-{key:06} ok")?,
        }
    }
    Ok(report)
}
