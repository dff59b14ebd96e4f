//! One run of the program on devices in memory.

use anyhow::Result;
use spl_calls::Callbacks;
use spl_message::{Key, MergeLaw, Value};
use spl_ops::Capped;
use spl_port::{MemPort, MemSink, MemSource};
use spl_top::splinter;
use std::alloc::Global;
use std::{array, str};

/// Room for the longest report.
const ROOM: u64 = 1 << 25;

/// The status of a run, and the text that it wrote.
#[derive(Debug, Drop)]
pub(crate) struct Outcome {
    pub(crate) status: u8,
    pub(crate) text: String,
}

/// Runs the program on this input. One space parts two of its words.
pub(crate) fn outcome_of(alloc: Global, words: &str, input: &str) -> Result<Outcome> {
    let mut list = Vec::new(alloc);
    for word in words.split(' ') {
        list.push(String::from_str(alloc, word)?)?;
    }
    let law = Capped { cap: 1000 };
    let own = Callbacks::new(
        law,
        move |alloc: Global, key: &Key, older: &Value, newer: &Value| {
            law.join(alloc, key, older, newer)
        },
        move |alloc: Global, key: &Key, old: Option<&Value>, operand: &Value| {
            law.apply(alloc, key, old, operand)
        },
    );
    let mut ports: [MemPort; 16] = array::from_fn(|_| MemPort::new(alloc));
    let bytes = Vec::from_slice(alloc, input.as_bytes())?;
    let mut source = MemSource::new(bytes, Vec::new(alloc));
    let mut sink = MemSink::new(alloc, ROOM, Vec::new(alloc))?;
    let status = splinter(
        alloc,
        list.as_slice(),
        &mut ports,
        &own,
        &mut source,
        &mut sink,
    );
    let text = String::from_str(alloc, str::from_utf8(sink.bytes())?)?;
    Ok(Outcome { status, text })
}
