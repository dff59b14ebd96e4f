ghost use Rattle.std.specs.Prelude.{◌≡◌, IfOk};
ghost use Rattle.spl_page.specs.Lent.{message_lent};

use crate::LentValue;
use spl_message::{Message, NoMemory};
use std::alloc::Global;

/// A message whose value is borrowed.
#[derive(Clone, Copy, Debug)]
pub enum LentMessage<'a> {
    Insert(LentValue<'a>),
    Delete,
    Update(LentValue<'a>),
}

impl<'a> LentMessage<'a> {
    /// The message, borrowed.
    pub fn of(message: &'a Message) -> LentMessage<'a>
        ensures { message_lent result ≡ message.now }
    {
        match message {
            Message::Insert(value) => LentMessage::Insert(LentValue::of(value.bytes())),
            Message::Delete => LentMessage::Delete,
            Message::Update(operand) => LentMessage::Update(LentValue::of(operand.bytes())),
        }
    }

    /// An equal message in memory of its own. A delete takes none.
    pub fn copy(&self, alloc: Global) -> Result<Message, NoMemory>
        ensures ok { IfOk result (λ message. message ≡ message_lent self.now) }
        ensures delete { self.now ≡ LentMessage.Delete → result ≡ Ok Message.Delete }
    {
        match self {
            LentMessage::Insert(value) => Ok(Message::Insert(value.copy(alloc)?)),
            LentMessage::Delete => Ok(Message::Delete),
            LentMessage::Update(operand) => Ok(Message::Update(operand.copy(alloc)?)),
        }
    }
}
