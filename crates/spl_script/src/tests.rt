use super::*;
use spl_message::{Bound, Call, Key, Message, Span, Value};
use std::test::Fail;

fn why(rt: &HostRuntime, text: &[u8]) -> Option<ScriptFault> {
    read_script(rt.alloc(), text, 1).err()
}

#[test]
fn lines_have_every_form(rt: HostRuntime) -> Result<(), Fail> {
    let text =
        b"\r\n0 put a =%2b%7E\r\n\n00 upd %2a =\n0 del c\n0 get %64\r\n0 scan * *\n0 scan %2A d";
    let script = read_script(rt.alloc(), text, 1)?;
    let [a, star, c, d] = [
        Key::read(b"a")?,
        Key::read(b"*")?,
        Key::read(b"c")?,
        Key::read(b"d")?,
    ];
    let deeds = [
        Deed::One(Call::Put(a, Message::Insert(Value::read(rt.alloc(), b"+~")?))),
        Deed::One(Call::Put(star, Message::Update(Value::read(rt.alloc(), b"")?))),
        Deed::One(Call::Put(c, Message::Delete)),
        Deed::One(Call::Look(d)),
        Deed::Scan(Span {
            from: None,
            to: None,
        }),
        Deed::Scan(Span {
            from: Some(star),
            to: Some(Bound::of(&d)),
        }),
    ];
    assert_eq!(rt; script.lines().len(), deeds.len());
    for (line, deed) in script.lines().iter().zip(deeds) {
        assert_eq!(rt; line.caller, 0);
        assert_eq!(rt; line.deed, deed);
    }
    Ok(())
}

#[test]
fn a_caller_has_the_lines_with_its_number(rt: HostRuntime) -> Result<(), Fail> {
    let text = b"1 get a\n0 get b\n1 get c\n2 get d\n";
    let script = read_script(rt.alloc(), text, 3)?;
    let mut places = Vec::new(rt.alloc());
    for from in 0..script.lines().len() {
        match script.next_of(1, from) {
            Some((at, _)) => places.push(Some(at))?,
            None => places.push(None)?,
        }
    }
    assert_eq!(rt;
        places.as_slice(),
        [Some(0), Some(2), Some(2), None].as_slice()
    );
    assert_eq!(rt; script.into_lines().len(), 4);
    Ok(())
}

#[test]
fn the_first_reason_is_named(rt: HostRuntime) {
    for (text, line, reason) in [
        ("0\n", 1, LineWhy::Fields),
        ("\n\r\n ", 3, LineWhy::Caller),
        ("1 get a", 1, LineWhy::Caller),
        ("0 get a\n+0 get a", 2, LineWhy::Caller),
        ("000000000000000000000 get a", 1, LineWhy::Caller),
        ("0 pet", 1, LineWhy::Verb),
        ("0 upd a", 1, LineWhy::Fields),
        ("0 scan a b c", 1, LineWhy::Fields),
        ("0 put a %", 1, LineWhy::Value),
        ("0 put a =%2", 1, LineWhy::Text),
        ("0 put %2g 1", 1, LineWhy::Text),
        ("0 get a\r\r\n", 1, LineWhy::Text),
        ("0 get ", 1, LineWhy::Key),
        ("0 put  1", 1, LineWhy::Key),
        ("0 scan *", 1, LineWhy::Fields),
        ("0 scan * %", 1, LineWhy::Text),
    ] {
        assert_eq!(rt;
            why(&rt, text.as_bytes()),
            Some(ScriptFault::Line { line, why: reason }),
            "{text}"
        );
    }
}

#[test]
fn line_500001_is_one_too_many(rt: HostRuntime) -> Result<(), Fail> {
    let mut text = vec![in rt.alloc(); b'\n'; 500_000]?;
    assert_eq!(rt; why(&rt, text.as_slice()), None);
    text.push(b'\r')?;
    let fault = ScriptFault::Line {
        line: 500_001,
        why: LineWhy::Size,
    };
    assert_eq!(rt; why(&rt, text.as_slice()), Some(fault));
    Ok(())
}

#[test]
fn byte_16777217_is_one_too_many(rt: HostRuntime) -> Result<(), Fail> {
    let mut text = vec![in rt.alloc(); b'x'; 16_777_216]?;
    let fields = ScriptFault::Line {
        line: 1,
        why: LineWhy::Fields,
    };
    assert_eq!(rt; why(&rt, text.as_slice()), Some(fields));
    text.push(b'\n')?;
    let size = ScriptFault::Line {
        line: 1,
        why: LineWhy::Size,
    };
    assert_eq!(rt; why(&rt, text.as_slice()), Some(size));
    Ok(())
}

#[test]
fn a_script_is_written_as_it_was_read(rt: HostRuntime) -> Result<(), Fail> {
    let text = b"0 put a =1\n0 get a\n".as_slice();
    let script = read_script(rt.alloc(), text, 1)?;
    assert_eq!(rt; write_script(rt.alloc(), &script)?.as_slice(), text);
    Ok(())
}

#[test]
fn each_byte_has_one_spelling(rt: HostRuntime) -> Result<(), Fail> {
    let text = b"1 scan * *\r\n\n01 put * =%7e%2a%25%20\n0 scan %2a %61\n0 del %00\n1 upd a =";
    let script = read_script(rt.alloc(), text, 2)?;
    let written = b"1 scan * *\n1 put %2A =~%2A%25%20\n0 scan %2A a\n0 del %00\n1 upd a =\n";
    assert_eq!(rt;
        write_script(rt.alloc(), &script)?.as_slice(),
        written.as_slice()
    );
    Ok(())
}

#[test]
fn a_seed_gives_its_lines(rt: HostRuntime) -> Result<(), Fail> {
    let one = make(rt.alloc(), 0, 1)?;
    let line = b"0 put k01403 =8320871\n";
    assert_eq!(rt; write_script(rt.alloc(), &one)?.as_slice(), line.as_slice());
    let more = make(rt.alloc(), 7, 40)?;
    let text = write_script(rt.alloc(), &more)?;
    let again = read_script(rt.alloc(), text.as_slice(), 1)?;
    assert_eq!(rt; again.lines(), more.lines());
    Ok(())
}
