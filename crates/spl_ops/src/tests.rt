use super::*;
use spl_message::{Key, MergeLaw, NoMemory, Value};
use std::alloc::Global;
use std::test::Fail;

const GREATEST: &str = "18446744073709551615";

fn value(alloc: Global, text: &str) -> Result<Value, Fail> {
    Ok(Value::read(alloc, text.as_bytes())?)
}

/// What the law makes of the old value, or of none.
fn applied<L: MergeLaw>(
    alloc: Global,
    law: &L,
    old: Option<&str>,
    operand: &str,
) -> Result<Value, Fail>
    requires { L.ready law.now }
{
    let key = Key::read(b"k")?;
    let old = match old {
        Some(text) => Some(value(alloc, text)?),
        None => None,
    };
    Ok(law.apply(alloc, &key, old.as_ref(), &value(alloc, operand)?)?)
}

fn joined<L: MergeLaw>(alloc: Global, law: &L, older: &str, newer: &str) -> Result<Value, Fail>
    requires { L.ready law.now }
{
    let key = Key::read(b"k")?;
    Ok(law.join(alloc, &key, &value(alloc, older)?, &value(alloc, newer)?)?)
}

#[test]
fn each_law_folds_an_operand_into_a_value(rt: HostRuntime) -> Result<(), Fail> {
    let alloc = rt.alloc();
    for (kind, old, operand, expected) in [
        (Kind::Add, None, "07", "7"),
        (Kind::Add, Some(GREATEST), "1", "0"),
        (Kind::Add, Some("18446744073709551616"), "2", "2"),
        (Kind::Add, Some("1x"), "", "0"),
        (Kind::Max, None, "b", "b"),
        (Kind::Max, Some("b"), "ba", "ba"),
        (Kind::Tail, None, "b", "b"),
        (Kind::Tail, Some("a"), "b", "ab"),
        (Kind::Capped(10), Some("100"), "1", "10"),
    ] {
        let made = applied(alloc, &kind, old, operand)?;
        assert_eq!(rt; made.bytes(), expected.as_bytes());
    }
    let made = applied(alloc, &Capped { cap: 10 }, Some("100"), "1")?;
    assert_eq!(rt; made.bytes(), "10".as_bytes());
    Ok(())
}

#[test]
fn each_law_joins_two_operands(rt: HostRuntime) -> Result<(), Fail> {
    let alloc = rt.alloc();
    for (kind, older, newer, expected) in [
        (Kind::Add, "3", "4", "7"),
        (Kind::Max, "2", "10", "2"),
        (Kind::Tail, "a", "b", "ab"),
        (Kind::Capped(10), "4", "5", "9"),
    ] {
        let made = joined(alloc, &kind, older, newer)?;
        assert_eq!(rt; made.bytes(), expected.as_bytes());
    }
    Ok(())
}

#[test]
fn a_tail_keeps_the_last_512_bytes(rt: HostRuntime) -> Result<(), Fail> {
    let alloc = rt.alloc();
    let key = Key::read(b"k")?;
    let older = Value::read(alloc, &[b'a'; 512])?;
    let newer = value(alloc, "bc")?;
    let made = Kind::Tail.join(alloc, &key, &older, &newer)?;
    let mut expected = [b'a'; 512];
    expected[510] = b'b';
    expected[511] = b'c';
    assert_eq!(rt; made.bytes(), expected.as_slice());
    Ok(())
}
