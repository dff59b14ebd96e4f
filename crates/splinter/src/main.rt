//! The program over standard input and output: see `spl_top` for what it promises.
//!
//! `main` is the trusted edge: no clause can say what standard input gives, nor what standard output takes. It makes 16
//! devices in memory, and hands these, the words and the streams to the top call.
#![tactic(auto)]

ghost use Rattle.std.specs.Prelude.{◌≡◌, ◌⊎◌, true, codes, length};
ghost use Rattle.std.specs.Process.{exit_status};
ghost use Rattle.spl_ops.specs.Rules.{capped};
ghost use Rattle.spl_top.specs.Top.{Ends, Tells};

use spl_calls::Callbacks;
use spl_message::{Key, MergeLaw, Value};
use spl_ops::Capped;
use spl_port::{Failed, MemPort, Sink, Source, StdSink, StdSource, write_whole};
use spl_top::splinter;
use std::alloc::Global;
use std::process::ExitCode;
use std::rt::Env;
use std::{array, env, io};

/// The words that the program was given, without its own name.
fn words<R: Env + AllocGlobal>(rt: &R) -> io::Result<Vec<String>> {
    let mut words = Vec::new(rt.alloc());
    for word in env::args(rt)?.skip(1) {
        words.push(word)?;
    }
    Ok(words)
}

/// Writes why there are no words: a word is no UTF-8 text, or memory ran out.
fn refuse<O: Sink>(fault: io::Error, out: &mut O) -> u8
    ensures { Tells (O.means out.old) (O.means out.new) 1 (codes "words\n") result
        ⊎ Tells (O.means out.old) (O.means out.new) 7 (codes "memory\n") result }
{
    let (text, status) = match fault.kind() {
        io::ErrorKind::OutOfMemory => ("memory\n", 7),
        _ => ("words\n", 1),
    };
    match write_whole(out, text.as_bytes()) {
        Ok(()) => status,
        Err(Failed) => 4,
    }
}

/// The status of the process, which is that of the top call. The program's own merge rule adds numbers up to 1,000.
fn ended<I: Source, O: Sink>(
    alloc: Global,
    words: &[String],
    ports: &mut [MemPort],
    input: &mut I,
    out: &mut O,
) -> ExitCode
    requires { length ports.old ≡ 16 }
    ensures { Ends (capped 1000) true 1 words.now (I.means input.old) (I.means input.new) (O.means out.old) (O.means out.new) (exit_status result) }
{
    let law = Capped { cap: 1000 };
    let own = Callbacks::new(
        law,
        move |alloc: Global, key: &Key, older: &Value, newer: &Value| {
            law.join(alloc, key, older, newer)
        },
        move |alloc: Global, key: &Key, old: Option<&Value>, operand: &Value| {
            law.apply(alloc, key, old, operand)
        },
    );
    ExitCode::from(splinter(alloc, words, ports, &own, input, out))
}

fn main(rt: HostRuntime) -> ExitCode {
    let alloc = rt.alloc();
    let mut ports: [MemPort; 16] = array::from_fn(|_| MemPort::new(alloc));
    let mut input = StdSource::new(rt.reader());
    let mut out = StdSink::new(io::writer(&rt));
    match words(&rt) {
        Ok(words) => ended(alloc, words.as_slice(), &mut ports, &mut input, &mut out),
        Err(fault) => ExitCode::from(refuse(fault, &mut out)),
    }
}
