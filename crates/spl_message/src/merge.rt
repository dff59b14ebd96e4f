//! How two messages are combined into one, and which value the last one leaves.
ghost use Rattle.std.specs.Prelude.{◌≡◌, IfOk, IsOk, None, Some};
ghost use Rattle.spl_message.specs.Cell.{Cell};
ghost use Rattle.spl_message.specs.Message.{act, combine, settle, IsUpdate};

use crate::key::Key;
use crate::law::MergeLaw;
use crate::message::Message;
use crate::value::Value;
use spl_base::NoMemory;
use std::alloc::Global;

/// The message that stands for both: a newer insert or delete wins, and a newer update is applied to what an older
/// insert or delete leaves, or joined with an older update.
pub fn combine<L: MergeLaw>(
    alloc: Global,
    law: &L,
    key: &Key,
    older: &Message,
    newer: &Message,
) -> Result<Message, NoMemory>
    requires { L.ready law.now }
    ensures value { IfOk result (λ message. message ≡ combine (L.rule law.now) key.now older.now newer.now) }
    ensures acts { IfOk result (λ message. (cell : Cell) →
        act (L.rule law.now) key.now cell message ≡ act (L.rule law.now) key.now (act (L.rule law.now) key.now cell older.now) newer.now) }
{
    let operand = match newer {
        Message::Update(operand) => operand,
        Message::Insert(_) | Message::Delete => return newer.copy(),
    };
    match older {
        Message::Insert(value) => {
            let value = law.apply(alloc, key, Some(value), operand)?;
            Ok(Message::Insert(value))
        }
        Message::Delete => {
            let first = law.apply(alloc, key, None, operand)?;
            Ok(Message::Insert(first))
        }
        Message::Update(older) => {
            let joined = law.join(alloc, key, older, operand)?;
            Ok(Message::Update(joined))
        }
    }
}

/// As `combine`, for a caller that owns both messages: a newer insert or delete is moved, and takes no memory.
pub fn combine_owned<L: MergeLaw>(
    alloc: Global,
    law: &L,
    key: &Key,
    older: Message,
    newer: Message,
) -> Result<Message, NoMemory>
    requires { L.ready law.now }
    ensures value { IfOk result (λ message. message ≡ combine (L.rule law.now) key.now older newer) }
    ensures free { ¬ (IsUpdate (Some newer)) → IsOk result }
{
    let operand = match newer {
        Message::Update(operand) => operand,
        Message::Insert(_) | Message::Delete => return Ok(newer),
    };
    match older {
        Message::Insert(value) => {
            let value = law.apply(alloc, key, Some(&value), &operand)?;
            Ok(Message::Insert(value))
        }
        Message::Delete => {
            let value = law.apply(alloc, key, None, &operand)?;
            Ok(Message::Insert(value))
        }
        Message::Update(older) => {
            let joined = law.join(alloc, key, &older, &operand)?;
            Ok(Message::Update(joined))
        }
    }
}

/// The value that the message leaves for a key without a value, if there is a message. Only an update takes memory.
pub fn settle<L: MergeLaw>(
    alloc: Global,
    law: &L,
    key: &Key,
    message: Option<Message>,
) -> Result<Option<Value>, NoMemory>
    requires { L.ready law.now }
    ensures value { IfOk result (λ cell. cell ≡ settle (L.rule law.now) key.now message) }
    ensures free { ¬ (IsUpdate message) → IsOk result }
{
    match message {
        Some(Message::Insert(value)) => Ok(Some(value)),
        Some(Message::Update(operand)) => {
            let value = law.apply(alloc, key, None, &operand)?;
            Ok(Some(value))
        }
        Some(Message::Delete) | None => Ok(None),
    }
}
