ghost use Rattle.std.specs.Prelude.{◌≡◌, length};
ghost use Rattle.spl_port.specs.MemSink.{output_of};

use crate::splinter;
use spl_calls::Callbacks;
use spl_message::{Key, MergeLaw, Value};
use spl_ops::Capped;
use spl_port::{
    Blur, BlurPort, Calls, Failed, MemPort, MemSink, MemSource, Patches, Port, Sink, Source,
};
use std::alloc::Global;
use std::array;
use std::test::Fail;

/// A sink that takes one byte a write.
#[derive(Drop)]
struct Sip(MemSink);

impl Sink for Sip {
    ghost means = { λ s. output_of s.0 };

    fn write(&mut self, piece: &[u8]) -> Result<usize, Failed> {
        if piece.is_empty() {
            return self.0.write(piece);
        }
        self.0.write(&piece[..1])
    }
}

fn source(alloc: Global, text: &[u8], failing: &[u64]) -> Result<MemSource, Fail> {
    Ok(MemSource::new(
        Vec::from_slice(alloc, text)?,
        Vec::from_slice(alloc, failing)?,
    ))
}

/// Devices that never fail.
fn ports(alloc: Global) -> [MemPort; 16] {
    array::from_fn(|_| MemPort::new(alloc))
}

/// The status of the program with callbacks that add up to 1,000. The words stand with one space between two.
fn status_of<P: Port, I: Source, O: Sink>(
    alloc: Global,
    words: &str,
    ports: &mut [P],
    input: &mut I,
    out: &mut O,
) -> Result<u8, Fail>
    requires { length ports.old ≡ 16 }
{
    let mut list = Vec::new(alloc);
    for word in words.split(' ') {
        list.push(String::from_str(alloc, word)?)?;
    }
    let law = Capped { cap: 1000 };
    let own = Callbacks::new(
        law,
        move |alloc: Global, key: &Key, older: &Value, newer: &Value| {
            law.join(alloc, key, older, newer)
        },
        move |alloc: Global, key: &Key, old: Option<&Value>, operand: &Value| {
            law.apply(alloc, key, old, operand)
        },
    );
    Ok(splinter(alloc, list.as_slice(), ports, &own, input, out))
}

/// The status and the text of a run with this input on these devices.
fn run_on<P: Port>(
    alloc: Global,
    ports: &mut [P],
    words: &str,
    text: &[u8],
) -> Result<(u8, Vec<u8>), Fail>
    requires { length ports.old ≡ 16 }
{
    let mut input = source(alloc, text, &[])?;
    let mut out = MemSink::new(alloc, 1 << 20, Vec::new(alloc))?;
    let status = status_of(alloc, words, ports, &mut input, &mut out)?;
    Ok((status, Vec::from_slice(alloc, out.bytes())?))
}

/// The status and the text of a run with this input.
fn run_of(alloc: Global, words: &str, text: &[u8]) -> Result<(u8, Vec<u8>), Fail> {
    run_on(alloc, &mut ports(alloc), words, text)
}

const TOLD: &str = "0 0 put a =1 ok\n1 0 get a =1\n";

#[test]
fn scripts_are_answered_line_by_line(rt: HostRuntime) -> Result<(), Fail> {
    for (text, status, told) in [
        ("", 0, ""),
        ("0 put a =1\n0 get a\n", 0, TOLD),
        ("0 put a =1\r\n0 get a\r", 0, TOLD),
        ("0 del a\n0 get a\n", 0, "0 0 del a ok\n1 0 get a none\n"),
        ("0 put %20%25 =x\n", 0, "0 0 put %20%25 =x ok\n"),
        ("0 put * =*\n", 0, "0 0 put %2A =%2A ok\n"),
        ("0 get\n", 2, "line 1: fields\n"),
        ("0 get a\n\n0 pet a\n", 2, "line 3: verb\n"),
    ] {
        let (got, text) = run_of(rt.alloc(), "run", text.as_bytes())?;
        assert_eq!(rt; got, status, "{told}");
        assert_eq!(rt; text.as_slice(), told.as_bytes());
    }
    Ok(())
}

#[test]
fn updates_go_by_the_merge_rule(rt: HostRuntime) -> Result<(), Fail> {
    for (words, first, operand, value) in [
        ("run", "upd n =5", "007", "12"),
        ("run --merge=add", "put n =18446744073709551615", "1", "0"),
        ("run --merge max", "put n =b", "ba", "ba"),
        ("run --merge=tail", "upd n =a", "b", "ab"),
        ("run --merge=own", "put n =990", "20", "1000"),
    ] {
        let text = format!(in rt.alloc(); "0 {first}\n0 upd n ={operand}\n0 get n\n")?;
        let told = format!(in rt.alloc();
            "0 0 {first} ok\n1 0 upd n ={operand} ok\n2 0 get n ={value}\n"
        )?;
        let (status, text) = run_of(rt.alloc(), words, text.as_bytes())?;
        assert_eq!(rt; status, 0, "{words}");
        assert_eq!(rt; text.as_slice(), told.as_bytes());
    }
    Ok(())
}

#[test]
fn other_words_are_refused(rt: HostRuntime) -> Result<(), Fail> {
    for words in ["run --sets=1 --sets=1", "run --extents=65537", "ran", ""] {
        let (status, text) = run_of(rt.alloc(), words, b"")?;
        assert_eq!(rt; status, 1);
        assert_eq!(rt; text.as_slice(), b"words\n".as_slice());
    }
    Ok(())
}

#[test]
fn a_load_reads_no_input_and_tells_one_line(rt: HostRuntime) -> Result<(), Fail> {
    let alloc = rt.alloc();
    // The digest is FNV-1a of `0 0 put k01403 =8320871 ok` and LF.
    let told = "rows 1 found 0 none 0 digest 2202689824f5079f pages 0 leaves 1\n";
    let (status, text) = run_of(alloc, "load --seed=0 --lines=1", b"0 get\n")?;
    assert_eq!(rt; status, 0);
    assert_eq!(rt; text.as_slice(), told.as_bytes());
    let (_, first) = run_of(alloc, "load --lines=400 --merge=tail", b"")?;
    let (status, again) = run_of(alloc, "load --merge tail --lines 400", b"")?;
    assert_eq!(rt; status, 0);
    assert_eq!(rt; first.as_slice(), again.as_slice());
    Ok(())
}

#[test]
fn a_source_that_fails_is_refused(rt: HostRuntime) -> Result<(), Fail> {
    let alloc = rt.alloc();
    let mut input = source(alloc, b"0 get a\n", &[0])?;
    let mut out = MemSink::new(alloc, 1000, Vec::new(alloc))?;
    let status = status_of(alloc, "run", &mut ports(alloc), &mut input, &mut out)?;
    assert_eq!(rt; status, 3);
    assert_eq!(rt; out.bytes(), b"source\n".as_slice());
    Ok(())
}

#[test]
fn a_sink_that_fails_holds_a_front_of_the_report(rt: HostRuntime) -> Result<(), Fail> {
    let alloc = rt.alloc();
    let mut input = source(alloc, b"0 put a =1\n0 get a\n", &[])?;
    let mut out = Sip(MemSink::new(alloc, 1000, Vec::from_slice(alloc, &[5])?)?);
    let status = status_of(alloc, "run", &mut ports(alloc), &mut input, &mut out)?;
    assert_eq!(rt; status, 4);
    assert_eq!(rt; out.0.bytes(), b"0 0 p".as_slice());
    Ok(())
}

/// A script, and the report that is expected of it.
#[derive(Drop)]
struct Expected {
    script: String,
    told: String,
}

/// Puts of `=1` for the keys with the numbers below `count` and one line more, and the rows of these puts where all are
/// done, with the row of that line.
fn puts_and(alloc: Global, count: u32, line: &str, row: &str) -> Result<Expected, Fail> {
    let mut script = String::new(alloc);
    let mut told = String::new(alloc);
    for number in 0..count {
        script.push_str(&format!(in alloc; "0 put k{number:04} =1\n")?)?;
        told.push_str(&format!(in alloc; "{number} 0 put k{number:04} =1 ok\n")?)?;
    }
    script.push_str(line)?;
    told.push_str(row)?;
    Ok(Expected { script, told })
}

/// The status of a run on these devices, or `None` where its report is another one.
fn status_on<P: Port>(
    alloc: Global,
    ports: &mut [P],
    words: &str,
    expected: &Expected,
) -> Result<Option<u8>, Fail>
    requires { length ports.old ≡ 16 }
{
    let (status, text) = run_on(alloc, ports, words, expected.script.as_bytes())?;
    let same = text.as_slice() == expected.told.as_bytes();
    Ok(if same { Some(status) } else { None })
}

/// Devices in memory of which these calls fail.
fn failing(alloc: Global, reads_alone: bool) -> [MemPort; 16] {
    array::from_fn(|_| {
        let calls = if reads_alone {
            Calls::Reads
        } else {
            Calls::Every
        };
        MemPort::failing(alloc, calls)
    })
}

#[test]
fn put_5121_wants_a_device_with_an_extent(rt: HostRuntime) -> Result<(), Fail> {
    let alloc = rt.alloc();
    let full = puts_and(alloc, 5120, "", "")?;
    let mut ports = failing(alloc, false);
    assert_eq!(rt; status_on(alloc, &mut ports, "run", &full)?, Some(0));
    let line = "0 put k5120 =1\n";
    let more = puts_and(alloc, 5120, line, "- 0 put k5120 =1 fault\n")?;
    assert_eq!(rt; status_on(alloc, &mut ports, "run", &more)?, Some(5));
    let more = puts_and(alloc, 5120, line, "- 0 put k5120 =1 full\n")?;
    let words = "run --extents=0 --sets=1";
    assert_eq!(rt; status_on(alloc, &mut ports, words, &more)?, Some(6));
    Ok(())
}

/// A device that does not tell its pages, and gives them as they were written.
fn unpatched(alloc: Global) -> BlurPort {
    let none: Vec<(u16, u8)> = Vec::new(alloc);
    let bytes = Patches::from(none);
    BlurPort::new(alloc, Blur::Patch { page: 0, bytes })
}

#[test]
fn a_page_of_a_branch_is_read_and_looked_at(rt: HostRuntime) -> Result<(), Fail> {
    let alloc = rt.alloc();
    let line = "0 get k0000\n";
    let failed = puts_and(alloc, 5121, line, "5121 0 get k0000 fault\n")?;
    let mut ports = failing(alloc, true);
    assert_eq!(rt; status_on(alloc, &mut ports, "run", &failed)?, Some(5));

    let damaged = puts_and(alloc, 5121, line, "5121 0 get k0000 damaged\n")?;
    let mut zeros: [BlurPort; 16] = array::from_fn(|_| BlurPort::new(alloc, Blur::Zeros));
    assert_eq!(rt; status_on(alloc, &mut zeros, "run", &damaged)?, Some(8));

    let found = puts_and(alloc, 5121, line, "5121 0 get k0000 =1\n")?;
    let mut whole: [BlurPort; 16] = array::from_fn(|_| unpatched(alloc));
    assert_eq!(rt; status_on(alloc, &mut whole, "run", &found)?, Some(0));
    Ok(())
}
