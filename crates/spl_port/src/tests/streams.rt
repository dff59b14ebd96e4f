ghost use Rattle.spl_port.specs.MemSink.{output_of};
ghost use Rattle.spl_port.specs.MemSource.{input_of};

use crate::{
    Failed, MemSink, MemSource, ReadFault, Sink, Source, StdSink, StdSource, read_whole,
    write_whole,
};
use std::alloc::Global;
use std::io::Cursor;
use std::test::Fail;

/// A source that gives one byte a read.
#[derive(Drop)]
struct Drip(MemSource);

impl Source for Drip {
    ghost means = { λ s. input_of s.0 };

    fn read(&mut self, into: &mut [u8]) -> Result<usize, Failed> {
        if into.is_empty() {
            return self.0.read(into);
        }
        self.0.read(&mut into[..1])
    }
}

/// A sink that takes one byte a write.
#[derive(Drop)]
struct Sip(MemSink);

impl Sink for Sip {
    ghost means = { λ s. output_of s.0 };

    fn write(&mut self, piece: &[u8]) -> Result<usize, Failed> {
        if piece.is_empty() {
            return self.0.write(piece);
        }
        self.0.write(&piece[..1])
    }
}

fn source(alloc: Global, text: &[u8], failing: &[u64]) -> Result<MemSource, Fail> {
    Ok(MemSource::new(
        Vec::from_slice(alloc, text)?,
        Vec::from_slice(alloc, failing)?,
    ))
}

fn sink(alloc: Global, room: u64, failing: &[u64]) -> Result<MemSink, Fail> {
    Ok(MemSink::new(alloc, room, Vec::from_slice(alloc, failing)?)?)
}

#[test]
fn a_text_passes_byte_by_byte(rt: HostRuntime) -> Result<(), Fail> {
    let alloc = rt.alloc();
    let mut input = Drip(source(alloc, b"0 put a =1\n", &[])?);
    let text = read_whole(alloc, &mut input, 100)?;
    assert_eq!(rt; text.as_slice(), b"0 put a =1\n".as_slice());

    let mut out = Sip(sink(alloc, 100, &[])?);
    write_whole(&mut out, &text)?;
    assert_eq!(rt; out.0.bytes(), b"0 put a =1\n".as_slice());
    Ok(())
}

#[test]
fn a_limit_leaves_the_rest_to_read(rt: HostRuntime) -> Result<(), Fail> {
    let alloc = rt.alloc();
    let mut input = source(alloc, b"abcdef", &[])?;
    let first = read_whole(alloc, &mut input, 4)?;
    let rest = read_whole(alloc, &mut input, 4)?;
    let none = read_whole(alloc, &mut input, 4)?;
    assert_eq!(rt; first.as_slice(), b"abcd".as_slice());
    assert_eq!(rt; rest.as_slice(), b"ef".as_slice());
    assert_eq!(rt; none.len(), 0);
    Ok(())
}

#[test]
fn a_read_that_fails_in_mid_stream_ends_the_reading(rt: HostRuntime) -> Result<(), Fail> {
    let alloc = rt.alloc();
    let mut input = Drip(source(alloc, b"abc", &[2])?);
    assert_eq!(rt;
        read_whole(alloc, &mut input, 100).err(),
        Some(ReadFault::Failed)
    );
    let rest = read_whole(alloc, &mut input, 100)?;
    assert_eq!(rt; rest.as_slice(), b"c".as_slice());
    Ok(())
}

#[test]
fn a_write_that_fails_in_mid_stream_ends_the_writing(rt: HostRuntime) -> Result<(), Fail> {
    let alloc = rt.alloc();
    let mut out = Sip(sink(alloc, 100, &[2])?);
    assert_eq!(rt; write_whole(&mut out, b"abc"), Err(Failed));
    assert_eq!(rt; out.0.bytes(), b"ab".as_slice());
    write_whole(&mut out, b"c")?;
    assert_eq!(rt; out.0.bytes(), b"abc".as_slice());
    Ok(())
}

#[test]
fn a_full_sink_keeps_what_fitted(rt: HostRuntime) -> Result<(), Fail> {
    let alloc = rt.alloc();
    let mut out = sink(alloc, 4, &[])?;
    assert_eq!(rt; out.write(b"abcdef"), Ok(4));
    assert_eq!(rt; out.write(b"ef"), Err(Failed));
    assert_eq!(rt; out.write(b""), Ok(0));
    assert_eq!(rt; out.bytes(), b"abcd".as_slice());
    Ok(())
}

#[test]
fn a_reader_and_a_writer_of_std_pass_a_text(rt: HostRuntime) -> Result<(), Fail> {
    let alloc = rt.alloc();
    let mut input = StdSource::new(Cursor::new(Vec::from_slice(alloc, b"hello")?));
    let text = read_whole(alloc, &mut input, 100)?;
    assert_eq!(rt; text.as_slice(), b"hello".as_slice());

    let mut written = Vec::new(alloc);
    write_whole(&mut StdSink::new(&mut written), &text)?;
    assert_eq!(rt; written.as_slice(), b"hello".as_slice());
    Ok(())
}
