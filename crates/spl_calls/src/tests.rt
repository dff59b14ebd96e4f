use super::*;
use spl_message::{Key, MergeLaw, Message, Value, combine};
use spl_ops::Capped;
use std::alloc::Global;
use std::test::Fail;

fn crosses<T: Send + Sync>(_value: &T) {}

fn insert(alloc: Global, text: &str) -> Result<Message, Fail> {
    Ok(Message::Insert(Value::read(alloc, text.as_bytes())?))
}

fn update(alloc: Global, text: &str) -> Result<Message, Fail> {
    Ok(Message::Update(Value::read(alloc, text.as_bytes())?))
}

#[test]
fn callbacks_fold_as_the_law_beside_them(rt: HostRuntime) -> Result<(), Fail> {
    let alloc = rt.alloc();
    let key = Key::read(b"k")?;
    let law = Capped { cap: 10 };
    let calls = Callbacks::new(
        law,
        move |alloc: Global, key: &Key, older: &Value, newer: &Value| {
            law.join(alloc, key, older, newer)
        },
        move |alloc: Global, key: &Key, old: Option<&Value>, operand: &Value| {
            law.apply(alloc, key, old, operand)
        },
    );
    crosses(&calls);
    for (older, newer, both) in [
        (
            insert(alloc, "100")?,
            update(alloc, "1")?,
            insert(alloc, "10")?,
        ),
        (Message::Delete, update(alloc, "07")?, insert(alloc, "7")?),
        (
            update(alloc, "4")?,
            update(alloc, "5")?,
            update(alloc, "9")?,
        ),
    ] {
        assert_eq!(rt; combine(alloc, &calls, &key, &older, &newer)?, both);
    }
    Ok(())
}
